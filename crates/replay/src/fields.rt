// The fields of a listing, each read from its bytes when it is asked for; past the end they read as 0.
#![tactic(auto, unfolding(crate::specs::Listings::long_at, crate::specs::Listings::line_count, crate::specs::Listings::head_in, crate::specs::Listings::head_line, crate::specs::Listings::head_rule, crate::specs::Listings::ground_at, crate::specs::Listings::row_of, crate::specs::Listings::first_parent, crate::specs::Listings::second_parent))]

ghost use Rattle.std.specs.Prelude.{◌≡◌, ◌+◌, ◌<◌, ◌≤◌};
ghost use Rattle.plan.specs.Bytes.{word_at};
ghost use Rattle.replay.specs.Listings as listings;

use plan::{byte_at, word_at};
use rules::Line;

fn long_at(bytes: &[u8], at: usize) -> u64
    requires { at < 65534 }
    ensures { (result ≡ listings.long_at bytes.now at) × (result < 4294967296) }
{
    word_at(bytes, at) * 65536 + word_at(bytes, at + 2)
}

pub fn line_count(listing: &[u8]) -> usize
    ensures { (result ≡ listings.line_count listing.now) × (result < 65536) }
{
    word_at(listing, 0) as usize
}

fn head_at(i: usize) -> usize
    requires { i < 4096 }
    ensures { (result ≡ listings.head_in i) × (result < 32770) }
{
    2 + 8 * i
}

// A listing of at most 4,096 lines.
#[derive(Clone, Copy)]
pub struct Listing<'a> {
    pub bytes: &'a [u8],
    ghost few: { listings.line_count bytes.now ≤ 4096 },
}

impl<'a> Listing<'a> {
    pub fn head_line(&self, i: usize) -> Line
        requires { i < 4096 }
        ensures value { result ≡ listings.head_line self.now.bytes.now i }
        ensures wait_bound { result.wait < 4294967296 }
    {
        let at = head_at(i);
        Line {
            point: byte_at(self.bytes, at),
            set: byte_at(self.bytes, at + 1),
            label: byte_at(self.bytes, at + 2),
            wait: long_at(self.bytes, at + 4),
        }
    }

    pub fn head_rule(&self, i: usize) -> usize
        requires { i < 4096 }
        ensures { (result ≡ listings.head_rule self.now.bytes.now i) × (result < 256) }
    {
        byte_at(self.bytes, head_at(i) + 3)
    }

    // The 16 bits at a place of a line's ground.
    fn ground_word(&self, i: usize, at: usize) -> usize
        requires { (i < 4096) × (at ≤ 4) }
        ensures { (result ≡ word_at self.now.bytes.now (listings.ground_at self.now.bytes.now i + at)) × (result < 65536) }
    {
        let ground = 2 + 8 * line_count(self.bytes) + 6 * i;
        word_at(self.bytes, ground + at) as usize
    }

    pub fn row_of(&self, i: usize) -> usize
        requires { i < 4096 }
        ensures { (result ≡ listings.row_of self.now.bytes.now i) × (result < 65536) }
    {
        self.ground_word(i, 0)
    }

    pub fn first_parent(&self, i: usize) -> usize
        requires { i < 4096 }
        ensures { (result ≡ listings.first_parent self.now.bytes.now i) × (result < 65536) }
    {
        self.ground_word(i, 2)
    }

    pub fn second_parent(&self, i: usize) -> usize
        requires { i < 4096 }
        ensures { (result ≡ listings.second_parent self.now.bytes.now i) × (result < 65536) }
    {
        self.ground_word(i, 4)
    }
}
