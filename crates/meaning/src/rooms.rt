// The areas of those who bring their own, the printing library and the host's calls: a list of full size fits.
pub const WORDS_ROOM: usize = 4096;

pub const WORK_ROOM: usize = 14352;

pub const ROTA_ROOM: usize = 256;

pub const CHAINS_ROOM: usize = 1024;
