ghost use Rattle.std.specs.Prelude.{◌≡◌};
ghost use Rattle.std.specs.List.{list_any};
ghost use Rattle.program_answers.specs.Finish.{finish_of as the_finish, finish_status};
ghost use Rattle.program_answers.specs.Finish.{is_limit as ends_at_limit};
ghost use Rattle.program_answers.specs.Finish.{is_uncaught as ends_uncaught, some_end};

use jvm_types::{End, Outcome, ThreadReport};

/// How a run finished.
#[derive(Clone, Copy, Debug, PartialEq, Eq)]
pub enum Finish {
    /// Each part that ran returned.
    Returned,
    /// No part met a limit, and some part was ended by an exception that nothing caught.
    Uncaught,
    /// Some part met a limit.
    Limited,
}

impl Finish {
    /// The status of a run that finished so.
    pub fn status(self) -> u8
        ensures { result ≡ finish_status self }
    {
        match self {
            Finish::Returned => 0,
            Finish::Uncaught => 1,
            Finish::Limited => 7,
        }
    }
}

/// How a run finished that came to this.
pub fn finish_of(outcome: &Outcome) -> Finish
    ensures { result ≡ the_finish outcome.now }
{
    if meets_limit(outcome) {
        Finish::Limited
    } else if is_ended_by_exception(outcome) {
        Finish::Uncaught
    } else {
        Finish::Returned
    }
}

fn meets_limit(outcome: &Outcome) -> bool
    ensures { result ≡ some_end ends_at_limit outcome.now }
{
    any_limit(outcome.threads.as_slice()) || is_limit(outcome.done)
}

fn any_limit(threads: &[ThreadReport]) -> bool
    ensures { result ≡ list_any (λ t. ends_at_limit t.end) threads.now }
{
    threads.iter().any(|thread| is_limit(thread.end))
}

fn is_limit(end: End) -> bool
    ensures { result ≡ ends_at_limit end }
{
    matches!(end, End::Steps | End::Turns | End::Records | End::Prints)
}

fn is_ended_by_exception(outcome: &Outcome) -> bool
    ensures { result ≡ some_end ends_uncaught outcome.now }
{
    any_uncaught(outcome.threads.as_slice()) || is_uncaught(outcome.done)
}

fn any_uncaught(threads: &[ThreadReport]) -> bool
    ensures { result ≡ list_any (λ t. ends_uncaught t.end) threads.now }
{
    threads.iter().any(|thread| is_uncaught(thread.end))
}

fn is_uncaught(end: End) -> bool
    ensures { result ≡ ends_uncaught end }
{
    matches!(end, End::Uncaught(_))
}
