// What a request comes to.
ghost use Rattle.std.specs.Prelude.{◌≡◌};
ghost use Rattle.sound_calls.specs.Answer.{told};
ghost use Rattle.answers.specs.Lines.{line_of};
ghost use Rattle.shell.specs.Request.{step};

use answers::lines::of_answer;
use answers::texts::TextKind;
use region::{After, HeapMemoryRegion};
use sound_calls::{AllocError, Answer, Carried};
use text::answer::Line;

// What the shell replies to a request. (An `Answer` is the heap's, to a call.)
#[derive(Clone, Copy)]
pub enum Reply {
    Line(Line),
    // So many words are lent from now on.
    Lent(usize),
    // A text that is made of the record and the words.
    Text(TextKind),
}

// A call's answer, as a line; the record that it left is kept.
pub fn told<T: Carried>(left: After<Result<T, AllocError>>, region: &mut HeapMemoryRegion) -> Reply
    ensures { record { region = region.new; answer = result } ≡ step left.region (line_of (told T.values left.answer)) }
{
    *region = left.region;
    seen(left.answer)
}

// The answer of a call that only reads.
pub fn seen<T: Carried>(answer: Result<T, AllocError>) -> Reply
    ensures { result ≡ Reply.Line (line_of (told T.values answer)) }
{
    Reply::Line(of_answer(Answer::from(answer)))
}
