//! The texts of a run and of a refusal.

use class_runner::{refusal, report};
use jvm_types::{
    CRule, Counts, End, LRule, Outcome, Print, Rows, Rule, ThreadReport, Thrown, in_file, in_method,
};
use std::alloc::{AllocError, Global};
use std::test::*;

/// What the threads of the report print, end with and count.
const REPORT: &str =
    "5\n12\n-7\ninit returned\nthread 1 uncaught java/lang/ArithmeticException\ndone not run\n\
    counts 0 instructions 6 elided 0 failed 0 locked 1 inflated 0\n\
    counts 1 instructions 40 elided 2 failed 1 locked 0 inflated 3\n";

const FIRST: Counts = Counts {
    instructions: 6,
    elided: 0,
    failed: 0,
    locked: 1,
    inflated: 0,
};

const SECOND: Counts = Counts {
    instructions: 40,
    elided: 2,
    failed: 1,
    locked: 0,
    inflated: 3,
};

fn thread(
    alloc: Global,
    end: End,
    prints: &[Print],
    counts: Counts,
) -> Result<ThreadReport, AllocError> {
    let prints = Rows::from_slice(alloc, prints)?;
    Ok(ThreadReport {
        end,
        prints,
        counts,
    })
}

fn print(ticket: u64, value: i32) -> Print {
    Print { ticket, value }
}

#[test]
fn reports_two_threads_and_refusals(rt: HostRuntime) -> Result<(), Fail> {
    let alloc = rt.alloc();
    let mut threads = Rows::new(alloc);
    let prints = [print(0, 5), print(2, -7)];
    threads.push(thread(alloc, End::Returned, &prints, FIRST)?)?;
    let end = End::Uncaught(Thrown::ArithmeticException);
    threads.push(thread(alloc, end, &[print(1, 12)], SECOND)?)?;
    let outcome = Outcome {
        threads,
        done: End::NotRun,
    };
    let text = report(alloc, &outcome)?;
    assert_eq!(rt; text.as_slice(), REPORT.as_bytes());
    let text = refusal(alloc, Rule::L(LRule::L8), in_file(0, 0))?;
    assert_eq!(rt; text.as_slice(), b"refused L8 file 0 at 0\n".as_slice());
    let text = refusal(alloc, Rule::C(CRule::C10), in_method(3, 12, 65_535))?;
    assert_eq!(rt;
        text.as_slice(),
        b"refused C10 file 3 method 12 at 65535\n".as_slice()
    );
    Ok(())
}
