// The numbers of the rows that the program speaks of: ST and BAK, which every guide has, and those of the envelope, behind the 64 rows that a
// guide may have. A row is a number and no enum: the rows of a guide are its numbers from 1 on, and derivations know the envelope's as the next.
pub const ST: u8 = 1;

pub const BAK: u8 = 2;

pub const ISA: u8 = 65;

pub const GS: u8 = 66;

pub const GE: u8 = 67;

pub const IEA: u8 = 68;
