// One value a seat, in a table of 64 places. There is no place past the 64th: none reads as what is handed in for it, and nothing is
// written there.
ghost use Rattle.std.specs.Prelude.{◌≡◌};
ghost use Rattle.seats.specs.Table.{value_at, with_value};

#[tactic(auto, using(crate::specs::TableLaws::value_read), unfolding(crate::specs::Table::value_at))]
pub fn value_at<T: Copy>(t: &[T; 64], k: usize, none: T) -> T
    ensures { result ≡ value_at t.now k none }
{
    if k < 64 { t[k] } else { none }
}

#[tactic(auto, unfolding(crate::specs::Table::with_value))]
pub fn put_value<T: Copy>(t: &mut [T; 64], k: usize, x: T)
    ensures { t.new ≡ with_value t.old k x }
{
    if k < 64 {
        t[k] = x;
    }
}
