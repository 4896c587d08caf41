// A number of 16 bits in two bytes, low byte first.
ghost use Rattle.std.specs.Prelude.{◌≡◌, [], ◌+◌, ◌≤◌, length};
ghost use Rattle.rules.specs.Form.{word};
ghost use Rattle.rules.specs.Retold.{two, patched};

// The number of the two bytes from a place on.
pub fn word_at(bytes: &[u8], at: usize) -> u16
    requires { at + 2 ≤ length bytes.now }
    ensures { result ≡ word bytes.now at }
{
    u16::from_le_bytes([bytes[at], bytes[at + 1]])
}

// Writes a number into the two bytes from a place on.
pub fn put_word_at(bytes: &mut [u8], at: usize, x: u16)
    requires { at + 2 ≤ length bytes.old }
    ensures { bytes.new ≡ patched bytes.old at (two x []) }
{
    let [low, high] = x.to_le_bytes();
    bytes[at] = low;
    bytes[at + 1] = high;
}
