// What a word can put into a job: the bytes of a worked job, and records in order.

// One plate, and zeros: its bodies lie at 16, 22, 26 and 44, and it ends at 59.
pub fn plate(k: usize) -> u8 {
    let bytes = b"\x10\0\x06\0\x16\0\x04\0\x1a\0\x12\0\x2c\0\x0f\0\
          \x04\x03\x02\x03\0\0\
          \x02\0\x01\0\
          \0\0\x01\0\0\x03\x01\x01\x01\x01\x01\x02\x01\x02\0\x02\x02\0\
          \0\x01\0\x01\x01\x01\x02\x02\x02\x02\x02\x02\0\0\x01";
    bytes.get(k).copied().unwrap_or(0)
}

// Bare, and zeros: its bodies lie at 16, 22, 23 and 23, and it ends at 25.
pub fn bare(k: usize) -> u8 {
    let bytes = b"\x10\0\x06\0\x16\0\x01\0\x17\0\0\0\x17\0\x02\0\x01\x01\0\x01\0\0\0\0\0";
    bytes.get(k).copied().unwrap_or(0)
}

// One plate in the tall form, and zeros: its bodies lie at 16, 24, 28 and 58, and it ends at 73.
pub fn tall_plate(k: usize) -> u8 {
    let bytes = b"\x10\0\x08\0\x18\0\x04\0\x1c\0\x1e\0\x3a\0\x0f\0\
          \x04\0\x03\x02\x03\0\0\0\
          \x02\0\x01\0\
          \0\0\0\x01\0\0\0\0\x03\0\x01\0\x01\x01\0\x01\0\x01\x02\0\x01\0\x02\0\0\x02\0\x02\0\0\
          \0\x01\0\x01\x01\x01\x02\x02\x02\x02\x02\x02\0\0\x01";
    bytes.get(k).copied().unwrap_or(0)
}

// Bare in the tall form, and zeros: its bodies lie at 16, 24, 25 and 25, and it ends at 27.
pub fn tall_bare(k: usize) -> u8 {
    let bytes = b"\x10\0\x08\0\x18\0\x01\0\x19\0\0\0\x19\0\x02\0\x01\0\x01\0\x01\0\0\0\0\0\0";
    bytes.get(k).copied().unwrap_or(0)
}

// Records in order: in record r action 0 leads from state r / 64 to state r % 64.
pub fn record(k: usize) -> u8 {
    match k % 3 {
        0 => (k / 192 % 256) as u8,
        1 => 0,
        _ => (k / 3 % 64) as u8,
    }
}

// Tall records in order: in record r action 0 leads from state r / 16 to state r % 16 * 32 + 31.
pub fn tall_record(k: usize) -> u8 {
    let r = k / 5;
    let outcome = r % 16 * 32 + 31;
    match k % 5 {
        0 => (r / 16 % 256) as u8,
        1 => (r / 4096 % 256) as u8,
        2 => 0,
        3 => (outcome % 256) as u8,
        _ => (outcome / 256 % 256) as u8,
    }
}
