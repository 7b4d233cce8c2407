// Numbers written as bytes, the high byte first.
ghost use Rattle.std.specs.Prelude.{◌≡◌, ◌+◌, ◌<◌, length};
ghost use Rattle.std.proofs.lemmas.List.Edits.{sets};
ghost use Rattle.plan.specs.Moments.{SameLength};
ghost use Rattle.listing_write.specs.Entry.{word_bytes};

pub fn put_word(out: &mut [u8], at: usize, value: usize)
    requires { (at + 1 < length out.old) × (value < 65536) }
    ensures out_value { out.new ≡ sets out.old at (word_bytes value) }
    ensures same_length { SameLength out }
{
    out[at] = (value / 256) as u8;
    out[at + 1] = (value % 256) as u8;
}
