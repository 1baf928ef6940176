// Why something is refused: 01's table of numbers, by name.
ghost use Rattle.std.specs.Prelude.{◌≡◌, cond};
ghost use Rattle.base.specs.Refusal.{number_of};

// In the order of their numbers, which begin at 1.
#[derive(Clone, Copy, PartialEq, Eq)]
pub enum Refusal {
    // Setup: n outside 4 to 64; f is 0 or too large; own seat; own entry.
    HouseSize = 1,
    FaultySeats = 2,
    OwnSeat = 3,
    OwnEntry = 4,
    // The view is 0; the sender is no seat; the mark is `-`.
    NoView = 5,
    Sender = 6,
    Mark = 7,
    View = 8,
    Leader = 9,
    Entry = 10,
    Certificate = 11,
    // Said before: by the replica, or by the sender.
    Again = 12,
    Stage = 13,
    Vote = 14,
    Rows = 15,
    Selection = 16,
    // A's row has a higher view; C's entry is not the chosen one.
    OlderView = 17,
    OtherEntry = 18,
    // Of the reader; of the writer.
    Line = 19,
    Room = 20,
    Unwritable = 21,
}

// The number that is printed, and handed to C; 0 where nothing is refused.
pub fn number_of(x: Result<(), Refusal>) -> u8
    ensures { result ≡ number_of x }
{
    match x {
        Ok(()) => 0,
        Err(why) => why as u8,
    }
}

// One test of a table: `refuse_if(..)?` goes on where it does not apply.
pub fn refuse_if(applies: bool, why: Refusal) -> Result<(), Refusal>
    ensures { result ≡ cond applies (Err why) (Ok tt) }
{
    if applies { Err(why) } else { Ok(()) }
}
