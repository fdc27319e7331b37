// What a message of a core drive says of a state: whether a pattern number differs from the one known, and the state
// after the message is accepted.
#![tactic(auto)]

ghost use Rattle.std.specs.Prelude.{◌≡◌};
ghost use Rattle.drive_states.specs.Messages.{entries_in, sender_of, content_of, message_of};
ghost use Rattle.agreement.specs.Calls.{any_differs, lower, announcing, accept};
ghost use Rattle.drive_sets.specs.Refusals.{refuse_if, yields};
ghost use Rattle.exchange.specs.Replies.{Replied};

use drive_sets::{Drive, Pattern, Refusal};
use drive_states::{Announcement, Exchange};
use messages::reading;
use records::Kind;

mod entries;

// The announcement of the lower-numbered sender.
#[tactic(auto, unfolding(agreement::specs::Calls::lower))]
fn lower(announced: Announcement, d: Drive, v: Pattern) -> Announcement
    ensures { result ≡ lower announced d.0 v.0 }
{
    match announced {
        Announcement::Absent => Announcement::By(d, v),
        Announcement::By(e, w) => {
            if d.0 < e.0 {
                Announcement::By(d, v)
            } else {
                Announcement::By(e, w)
            }
        }
    }
}

// A DC or DW announces a decision.
#[tactic(auto, unfolding(agreement::specs::Calls::announcing, drive_states::specs::Messages::content_of))]
fn announcing(announced: Announcement, kind: Kind, s: &[u8]) -> Announcement
    ensures { result ≡ announcing announced (sender_of s.now) (content_of kind s.now) }
{
    if reading::is_known(kind) {
        return announced;
    }
    lower(
        announced,
        reading::sender_of(s),
        reading::pattern_of(kind, s),
    )
}

// A message that meets no earlier refusal: 25 where a pattern number differs from the one known for its drive. Else
// every accepted sender counts as heard, a KN or KW adds its drives' numbers, a DC or DW announces a decision.
#[tactic(auto, using(drive_states::specs::Messages::Laws::entries_mask), unfolding(agreement::specs::Calls::accept, drive_states::specs::Messages::message_of, drive_sets::specs::Masks::union))]
pub fn accept(kind: Kind, x: &mut Exchange, s: &[u8]) -> Result<(), Refusal>
    ensures { Replied (refuse_if (any_differs x.old (entries_in (content_of kind s.now))) Refusal.PatternDiffers (yields (accept x.old (message_of kind s.now)))) x.old x.new result }
{
    let mask = reading::mask_in(kind, s);
    let Some(numbers) = entries::read_all(kind, x, mask, s) else {
        return Err(Refusal::PatternDiffers);
    };
    x.numbers = numbers;
    x.known |= mask;
    x.heard = drive_sets::insert(x.heard, reading::sender_of(s));
    x.announced = announcing(x.announced, kind, s);
    Ok(())
}
