ghost use Rattle.std.specs.Prelude.{◌≡◌, ◌<◌};
ghost use Rattle.seen.specs.Buckets.{bucket_number};

// How many buckets numbers are spread over.
pub(crate) const BUCKETS: usize = 4096;

// The bucket of a number, by its bytes.
pub(crate) fn bucket_of(number: &[u8]) -> usize
    ensures is { result ≡ bucket_number number.now }
    ensures fits { result < 4096 }
{
    let mut bucket = 0;
    for byte in number {
        bucket = (bucket * 229 + usize::from(*byte)) % BUCKETS;
    }
    bucket
}
