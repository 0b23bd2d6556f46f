// The Rust's constants, and the sizes of the lent memory; proofs/Tied.antt ties each to its number in specs/.
// Ported from runtime/spach_arq.rs (chrismoos/136-bts 7c60b63bf4, Apache-2.0) and changed: see NOTICE.
pub const ECHO_VALUES: usize = 128;

pub const RESTART_BLOCKS: u64 = 64;

pub const REFRESH_BLOCKS: u64 = 16;

pub const MESSAGE_OCTETS: usize = 255;

pub const MESSAGE_WORDS: usize = 27;

pub const STORE_OCTETS: usize = 32640;

pub const STORE_WORDS: usize = 3456;

pub const CALL_TOKENS: u64 = 512;
