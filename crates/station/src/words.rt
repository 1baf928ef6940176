// A replica and a message as words. A word that is too large for what it stands for counts by its lowest bits.
ghost use Rattle.std.specs.Prelude.{◌≡◌};
ghost use Rattle.station.specs.Words.{scalars_of, replica_of, head_of, message_entry, message_vote, message_mask, message_count, message_of};

use acks::Acks;
use entry::Entry;
use entry::table::Entries;
use messages::{Assent, Head, Message, Proposal, Request};
use replica::{Replica, Stage};
use seats::{Seat, View};
use votes::{Row, Vote, VoteRows, Votes};

// What of a replica is no array, in this order: n, f, seat, stage, decided, view; of its vote cast, verified, view, entry (two
// words), mask; decision (two), chosen (two), confirmed, own entry (two); of the vote rows filled, cast, verified.
pub(crate) type Scalars = [u64; 22];

// seat, mark, view, entry (two words), mask, count; of a vote cast, mark, view, entry (two), mask.
pub(crate) type Words = [u64; 13];

// How many numbers a byte, and a view, can be.
const BYTES: u64 = 256;

const VIEWS: u64 = 4294967296;

// A replica as the caller keeps it. No From: a ghost member of it would say the answer, and no contract would stand at these methods.
#[derive(Drop)]
pub(crate) struct Arrays<'a> {
    pub scalars: &'a mut Scalars,
    pub ack_entries: &'a mut Entries,
    pub ack_views: &'a mut [u32; 64],
    pub vote_entries: &'a mut Entries,
    pub vote_masks: &'a mut [u64; 64],
    pub vote_views: &'a mut [u32; 64],
}

impl Arrays<'_> {
    pub(crate) fn replica(&self) -> Replica
        ensures { result ≡ replica_of self.now.scalars.now self.now.ack_entries.now self.now.ack_views.now self.now.vote_entries.now self.now.vote_masks.now self.now.vote_views.now }
    {
        let s = &*self.scalars;
        Replica {
            n: (s[0] % BYTES) as u8,
            f: (s[1] % BYTES) as u8,
            seat: Seat((s[2] % BYTES) as u8),
            stage: Stage((s[3] % BYTES) as u8),
            decided: s[4] % 2 == 1,
            view: View((s[5] % VIEWS) as u32),
            vote: Vote {
                entry: Entry {
                    hi: s[9],
                    lo: s[10],
                },
                mask: s[11],
                view: View((s[8] % VIEWS) as u32),
                cast: s[6] % 2 == 1,
                verified: s[7] % 2 == 1,
            },
            decision: Entry {
                hi: s[12],
                lo: s[13],
            },
            chosen: Entry {
                hi: s[14],
                lo: s[15],
            },
            confirmed: s[16],
            own: Entry {
                hi: s[17],
                lo: s[18],
            },
            acks: Acks {
                entries: *self.ack_entries,
                views: *self.ack_views,
            },
            votes: VoteRows {
                filled: s[19],
                votes: Votes {
                    cast: s[20],
                    verified: s[21],
                    entries: *self.vote_entries,
                    masks: *self.vote_masks,
                    views: *self.vote_views,
                },
            },
        }
    }

    // The next replica is left there.
    pub(crate) fn keep(self, r: Replica)
        ensures { (self.exit.0.now ≡ scalars_of r) × (self.exit.1.0.now ≡ r.acks.entries) × (self.exit.1.1.0.now ≡ r.acks.views) × (self.exit.1.1.1.0.now ≡ r.votes.votes.entries) × (self.exit.1.1.1.1.0.now ≡ r.votes.votes.masks) × (self.exit.1.1.1.1.1.0.now ≡ r.votes.votes.views) }
    {
        *self.scalars = scalars_of(r);
        // An array goes by way of a variable: the check of borrows covers no array that is copied from field to field.
        let acked = r.acks.entries;
        *self.ack_entries = acked;
        let views = r.acks.views;
        *self.ack_views = views;
        let entries = r.votes.votes.entries;
        *self.vote_entries = entries;
        let masks = r.votes.votes.masks;
        *self.vote_masks = masks;
        let voted = r.votes.votes.views;
        *self.vote_views = voted;
    }
}

// No From, here and below: neither an array of words nor what it stands for is a type of this crate.
fn scalars_of(r: Replica) -> Scalars
    ensures { result ≡ scalars_of r }
{
    [
        r.n as u64,
        r.f as u64,
        r.seat.0 as u64,
        r.stage.0 as u64,
        r.decided as u64,
        r.view.0 as u64,
        r.vote.cast as u64,
        r.vote.verified as u64,
        r.vote.view.0 as u64,
        r.vote.entry.hi,
        r.vote.entry.lo,
        r.vote.mask,
        r.decision.hi,
        r.decision.lo,
        r.chosen.hi,
        r.chosen.lo,
        r.confirmed,
        r.own.hi,
        r.own.lo,
        r.votes.filled,
        r.votes.votes.cast,
        r.votes.votes.verified,
    ]
}

fn head_of(m: &Words) -> Head
    ensures { result ≡ head_of m.now }
{
    Head {
        seat: Seat((m[0] % BYTES) as u8),
        verified: m[1] % 2 == 1,
        view: View((m[2] % VIEWS) as u32),
    }
}

fn entry_of(m: &Words) -> Entry
    ensures { result ≡ message_entry m.now }
{
    Entry { hi: m[3], lo: m[4] }
}

fn vote_of(m: &Words) -> Vote
    ensures { result ≡ message_vote m.now }
{
    Vote {
        entry: Entry {
            hi: m[10],
            lo: m[11],
        },
        mask: m[12],
        view: View((m[9] % VIEWS) as u32),
        cast: m[7] % 2 == 1,
        verified: m[8] % 2 == 1,
    }
}

fn mask_of(m: &Words) -> u64
    ensures { result ≡ message_mask m.now }
{
    m[5]
}

fn count_of(m: &Words) -> u8
    ensures { result ≡ message_count m.now }
{
    (m[6] % BYTES) as u8
}

// By the letter of its line, which C hands in as a byte; any other letter is an S.
pub(crate) fn message_of(kind: u8, m: &Words) -> Message
    ensures { result ≡ message_of kind m.now }
{
    let head = head_of(m);
    let entry = entry_of(m);
    match kind {
        b'E' => Message::Enter(head.view),
        b'P' => Message::Propose(Proposal {
            head,
            entry,
            mask: mask_of(m),
        }),
        b'A' => Message::Acknowledge(Assent { head, entry }),
        b'V' => Message::Cast(Row {
            seat: head.seat,
            verified: head.verified,
            view: head.view,
            vote: vote_of(m),
        }),
        b'Q' => Message::Ask(Request {
            head,
            entry,
            count: count_of(m),
        }),
        b'C' => Message::Confirm(Assent { head, entry }),
        _ => Message::Start,
    }
}
