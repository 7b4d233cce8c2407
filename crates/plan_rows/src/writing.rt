// The bytes of a plan with some of its edge rows. They have no labels of points: no rule sees these, and with fewer rows they need not fit.
ghost use Rattle.std.specs.Prelude.{◌≡◌, ◌++◌, ◌+◌, ◌≤◌, length, take, drop};
ghost use borrow.Rule.Slice.PartMut.{put_mid};
ghost use Rattle.plan.specs.Moments.{SameLength};
ghost use Rattle.plan.specs.Layout.{plan_of, length_for};
ghost use Rattle.plan.specs.Refusal.{Accepted};
ghost use Rattle.plan_rows.specs.Rows.{with_rows, marked};
ghost use Rattle.plan_rows.specs.RowBytes.{RowsIn, rows_bytes};

use plan::{copy_elements, data_at, edge_row, ends_at, label_bytes, labels_at, links};

// The numbers of the rows with mark 1 among the first n, in order, from the start of numbers on; how many there are. A list that grows needs a heap, so the
// memory is fixed and lent, and the count comes back beside it.
pub fn marked_rows(marks: &[u8], n: usize, numbers: &mut [usize]) -> usize
    requires { (n ≤ length marks.now) × (n ≤ length numbers.old) }
    ensures value { result ≡ length (marked (take n marks.now)) }
    ensures numbers_value { numbers.new ≡ marked (take n marks.now) ++ drop result numbers.old }
    ensures same_length { SameLength numbers }
{
    let mut count = 0;
    for (i, &mark) in marks[..n].iter().enumerate() {
        if mark == 1 {
            numbers[count] = i;
            count += 1;
        }
    }
    count
}

// So many bytes of the plan, from one place on, written into out from another on.
fn put_part(plan: &[u8], from: usize, count: usize, out: &mut [u8], at: usize)
    requires { (from + count ≤ length plan.now) × (at + count ≤ length out.old) }
    ensures { out.new ≡ put_mid at count out.old (take count (drop from plan.now)) }
{
    copy_elements(&mut out[at..at + count], &plan[from..from + count]);
}

// The bytes of the plan with these rows, from the start of out on; how many there are. Byte 3 counts the rows.
pub fn write_rows(plan: &[u8], rows: &[usize], out: &mut [u8]) -> usize
    requires accepted { Accepted plan.now × RowsIn (plan_of plan.now) rows.now }
    requires rows_in_bounds { length_for (with_rows (plan_of plan.now) rows.now) ≤ length out.old }
    ensures value { result ≡ length (rows_bytes plan.now rows.now) }
    ensures out_value { out.new ≡ rows_bytes plan.now rows.now ++ drop result out.old }
    ensures same_length { SameLength out }
{
    let labels = labels_at(plan);
    let links = links(plan);
    let ends = labels + 2 * links;
    let link_data = ends + 2 * rows.len();
    let edge_data = link_data + 4 * links;
    put_part(plan, 0, 3, out, 0);
    out[3] = rows.len() as u8;
    put_part(plan, 4, labels - 4, out, 4);
    put_part(plan, labels + label_bytes(plan), 2 * links, out, labels);
    for (i, &row) in rows.iter().enumerate() {
        let from = ends_at(plan, edge_row(plan, row));
        put_part(plan, from, 2, out, ends + 2 * i);
    }
    put_part(plan, data_at(plan, 0), 4 * links, out, link_data);
    for (i, &row) in rows.iter().enumerate() {
        let from = data_at(plan, edge_row(plan, row));
        put_part(plan, from, 4, out, edge_data + 4 * i);
    }
    edge_data + 4 * rows.len()
}
