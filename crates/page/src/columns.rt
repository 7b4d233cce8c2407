// The columns between the point and the wait.
ghost use Rattle.std.specs.Prelude.{◌≡◌, ◌+◌, ◌<◌};
ghost use Rattle.page.specs.Columns.{link_column, sign, proposition_column, links_in, middle_columns};

use plan::digit;
use rules_apply::contains;

#[tactic(auto, unfolding(crate::specs::Columns::link_column))]
fn link_column(set: usize, i: usize) -> u8
    requires { i < 4 }
    ensures { result ≡ link_column set i }
{
    if contains(set, i) {
        b'0' + i as u8
    } else {
        b'.'
    }
}

#[tactic(auto, unfolding(crate::specs::Columns::sign))]
fn sign_of(digit: usize) -> u8
    ensures { result ≡ sign digit }
{
    match digit {
        1 => b'+',
        2 => b'-',
        3 => b'?',
        _ => b'.',
    }
}

#[tactic(auto, unfolding(crate::specs::Columns::proposition_column))]
fn proposition_column(label: usize, j: usize) -> u8
    requires { j < 4 }
    ensures { result ≡ proposition_column label j }
{
    sign_of(digit(label, j))
}

fn count_column(set: usize) -> u8
    requires { set < 16 }
    ensures { result ≡ 48 + links_in set }
{
    b'0' + u32::count_ones(set as u32) as u8
}

// Columns 3 to 15.
#[tactic(auto, unfolding(crate::specs::Columns::middle_columns))]
pub fn middle_columns(set: usize, label: usize) -> [u8; 13]
    requires { set < 16 }
    ensures { result ≡ middle_columns set label }
{
    [
        b' ',
        link_column(set, 0),
        link_column(set, 1),
        link_column(set, 2),
        link_column(set, 3),
        b' ',
        proposition_column(label, 0),
        proposition_column(label, 1),
        proposition_column(label, 2),
        proposition_column(label, 3),
        b' ',
        count_column(set),
        b' ',
    ]
}
