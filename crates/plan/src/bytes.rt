// Bytes and 16-bit words of a slice of any length: past the end they are 0, and nothing is read there.
ghost use Rattle.std.specs.Prelude.{◌≡◌, ◌<◌};
ghost use Rattle.plan.specs.Bytes.{byte_at, word_at};

pub fn byte_at(bytes: &[u8], at: usize) -> usize
    ensures { (result ≡ byte_at bytes.now at) × (result < 256) }
{
    if at < bytes.len() {
        usize::from(bytes[at])
    } else {
        0
    }
}

pub fn word_at(bytes: &[u8], at: usize) -> u64
    requires { at < 65536 }
    ensures { (result ≡ word_at bytes.now at) × (result < 65536) }
{
    let high = byte_at(bytes, at);
    let low = byte_at(bytes, at + 1);
    (high * 256 + low) as u64
}
