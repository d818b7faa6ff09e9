//! The line of a refusal.

ghost use Rattle.std.specs.Prelude.{◌≡◌, IfOk};
ghost use Rattle.run_texts.specs.Refusal.{refusal_text, rule_text, c_number, k_number, l_number};
ghost use Rattle.run_texts.specs.Refusal.{v_number, s_number, a_number};

use jvm_types::{ARule, Bytes, CRule, KRule, LRule, NO_METHOD, Place, Rule, SRule, VRule};
use std::alloc::{AllocError, Global};
use std::fmt;

/// The line of a refusal.
pub fn refusal(alloc: Global, rule: Rule, place: Place) -> Result<Bytes, AllocError>
    ensures { IfOk result (λ text. text ≡ refusal_text rule place) }
{
    let refusal = RefusalText(rule, place);
    let mut line = String::new(alloc);
    writeln!(line, "{refusal}")?;
    Bytes::from_slice(alloc, line.as_bytes())
}

/// The letter and the number of a rule, as `K1`.
pub fn rule_name(alloc: Global, rule: Rule) -> Result<Bytes, AllocError>
    ensures { IfOk result (λ text. text ≡ rule_text rule) }
{
    let rule = RuleText(rule);
    let mut name = String::new(alloc);
    write!(name, "{rule}")?;
    Bytes::from_slice(alloc, name.as_bytes())
}

/// Displays a refusal by its rule and its place: `refused RULE file I at A`, with ` method J`
/// before ` at` where the place is in a method.
#[derive(Clone, Copy)]
pub struct RefusalText(pub Rule, pub Place);

impl fmt::Display for RefusalText {
    ghost use Rattle.std.specs.Prelude.{Some};
    ghost use Rattle.run_texts.specs.Refusal.{refusal_words};

    ghost output = { λ r. Some (refusal_words r.0 r.1) };

    fn fmt<W: fmt::Write>(&self, f: &mut fmt::Formatter<W>) -> fmt::Result {
        let rule = RuleText(self.0);
        let method = MethodText(self.1.method);
        let file = self.1.file;
        let at = self.1.at;
        write!(f, "refused {rule} file {file}{method} at {at}")
    }
}

/// Displays the method of a place, where it is in one.
#[derive(Clone, Copy)]
struct MethodText(u16);

impl fmt::Display for MethodText {
    ghost use Rattle.std.specs.Prelude.{Some};
    ghost use Rattle.run_texts.specs.Refusal.{method_text};

    ghost output = { λ m. Some (method_text m.0) };

    fn fmt<W: fmt::Write>(&self, f: &mut fmt::Formatter<W>) -> fmt::Result {
        let method = self.0;
        if method == NO_METHOD {
            f.write_str("")
        } else {
            write!(f, " method {method}")
        }
    }
}

/// Displays a rule by its letter and its number.
#[derive(Clone, Copy)]
struct RuleText(Rule);

impl fmt::Display for RuleText {
    ghost use Rattle.std.specs.Prelude.{Some};
    ghost use Rattle.run_texts.specs.Refusal.{rule_text};

    ghost output = { λ r. Some (rule_text r.0) };

    fn fmt<W: fmt::Write>(&self, f: &mut fmt::Formatter<W>) -> fmt::Result {
        match self.0 {
            Rule::C(rule) => {
                let number = c_number(rule);
                write!(f, "C{number}")
            }
            Rule::K(rule) => {
                let number = k_number(rule);
                write!(f, "K{number}")
            }
            Rule::L(rule) => {
                let number = l_number(rule);
                write!(f, "L{number}")
            }
            Rule::V(rule) => {
                let number = v_number(rule);
                write!(f, "V{number}")
            }
            Rule::S(rule) => {
                let number = s_number(rule);
                write!(f, "S{number}")
            }
            Rule::A(rule) => {
                let number = a_number(rule);
                write!(f, "A{number}")
            }
        }
    }
}

fn c_number(rule: CRule) -> u8
    ensures { result ≡ c_number rule }
{
    match rule {
        CRule::C1 => 1,
        CRule::C2 => 2,
        CRule::C3 => 3,
        CRule::C4 => 4,
        CRule::C5 => 5,
        CRule::C6 => 6,
        CRule::C7 => 7,
        CRule::C8 => 8,
        CRule::C9 => 9,
        CRule::C10 => 10,
    }
}

fn k_number(rule: KRule) -> u8
    ensures { result ≡ k_number rule }
{
    match rule {
        KRule::K1 => 1,
        KRule::K2 => 2,
        KRule::K3 => 3,
        KRule::K4 => 4,
        KRule::K5 => 5,
        KRule::K6 => 6,
    }
}

fn l_number(rule: LRule) -> u8
    ensures { result ≡ l_number rule }
{
    match rule {
        LRule::L1 => 1,
        LRule::L2 => 2,
        LRule::L3 => 3,
        LRule::L4 => 4,
        LRule::L5 => 5,
        LRule::L6 => 6,
        LRule::L7 => 7,
        LRule::L8 => 8,
        LRule::L9 => 9,
    }
}

fn v_number(rule: VRule) -> u8
    ensures { result ≡ v_number rule }
{
    match rule {
        VRule::V1 => 1,
        VRule::V2 => 2,
        VRule::V3 => 3,
        VRule::V4 => 4,
        VRule::V5 => 5,
        VRule::V6 => 6,
        VRule::V7 => 7,
        VRule::V8 => 8,
    }
}

fn s_number(rule: SRule) -> u8
    ensures { result ≡ s_number rule }
{
    match rule {
        SRule::S1 => 1,
        SRule::S2 => 2,
        SRule::S3 => 3,
        SRule::S4 => 4,
    }
}

fn a_number(rule: ARule) -> u8
    ensures { result ≡ a_number rule }
{
    match rule {
        ARule::A1 => 1,
        ARule::A2 => 2,
    }
}
