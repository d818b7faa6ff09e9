//! Each rule of refusal in a sentence, and what to write instead.

ghost use Rattle.std.specs.Prelude.{◌≡◌};
ghost use Rattle.refusal_places.specs.Sentences.{reading_means as the_reading_means};
ghost use Rattle.refusal_places.specs.Sentences.{reading_instead as the_reading_instead};
ghost use Rattle.refusal_places.specs.Sentences.{decoding_means as the_decoding_means};
ghost use Rattle.refusal_places.specs.Sentences.{decoding_instead as the_decoding_instead};
ghost use Rattle.refusal_places.specs.Sentences.{linking_means as the_linking_means};
ghost use Rattle.refusal_places.specs.Sentences.{linking_instead as the_linking_instead};
ghost use Rattle.refusal_places.specs.Sentences.{verifying_means as the_verifying_means};
ghost use Rattle.refusal_places.specs.Sentences.{verifying_instead as the_verifying_instead};
ghost use Rattle.refusal_places.specs.Sentences.{tagging_means as the_tagging_means};
ghost use Rattle.refusal_places.specs.Sentences.{tagging_instead as the_tagging_instead};
ghost use Rattle.refusal_places.specs.Sentences.{assembling_means as the_assembling_means};
ghost use Rattle.refusal_places.specs.Sentences.{assembling_instead as the_assembling_instead};
ghost use Rattle.refusal_places.specs.Sentences.{means as the_means, instead as the_instead};

use jvm_types::{ARule, CRule, KRule, LRule, Rule, SRule, VRule};

const AGAIN: &str = "the class, compiled again";

const STRUCTURED: &str = "a synchronized block or method, as javac writes it";

const TOGETHER: &str = "all classes compiled together";

const LISTING: &str = "a listing, as --mode list writes it";

fn reading_means(rule: CRule) -> &'static str
    ensures { result.now ≡ the_reading_means rule }
{
    match rule {
        CRule::C1 => "the file does not begin with 0xCAFEBABE, so it is no class file",
        CRule::C2 => "the version of the class file is below 45 or above 50",
        CRule::C3 => "the file ends inside an item",
        CRule::C4 => "a kind of constant that class files of Java 6 do not have",
        CRule::C5 => "an index names no constant, or one of another kind than its place needs",
        CRule::C6 => "a text has a byte that no text may have",
        CRule::C7 => "the length of a Code or a ConstantValue disagrees with its parts",
        CRule::C8 => "bytes stand behind the last attribute",
        CRule::C9 => "a method is abstract or native, or has not exactly one Code",
        CRule::C10 => "the file is longer than 1,048,576 bytes",
    }
}

fn reading_instead(rule: CRule) -> &'static str
    ensures { result.now ≡ the_reading_instead rule }
{
    match rule {
        CRule::C1 => "the name of a file that javac wrote",
        CRule::C2 => "classes compiled for Java 6 or before, as ./compile makes them",
        CRule::C3 | CRule::C5 | CRule::C6 | CRule::C7 | CRule::C8 => AGAIN,
        CRule::C4 => "no lambda and no method reference: a class with a method",
        CRule::C9 => "no interface, and no abstract or native method: the class itself as the type",
        CRule::C10 => "a class file, or several smaller classes",
    }
}

fn decoding_means(rule: KRule) -> &'static str
    ensures { result.now ≡ the_decoding_means rule }
{
    match rule {
        KRule::K1 => {
            "an instruction that this machine does not have, or an array of another type than \
                int"
        }
        KRule::K2 => "an operand is cut by the end of the code",
        KRule::K3 => "a branch or a switch leads to no start of an instruction",
        KRule::K4 => "a handler row is empty, or begins, ends or leads where no instruction begins",
        KRule::K5 => "the code has no byte, or more than 65,535",
        KRule::K6 => "a switch whose bounds, pairs or keys do not fit",
    }
}

fn decoding_instead(rule: KRule) -> &'static str
    ensures { result.now ≡ the_decoding_instead rule }
{
    match rule {
        KRule::K1 => {
            "an int for a long, a float or a double; x = x + 1000 for x += 1000; a class for \
                each type in place of casts and type parameters; a field that says the kind in \
                place of instanceof; objects with a field next in place of an array of objects"
        }
        KRule::K2 | KRule::K3 | KRule::K4 | KRule::K6 => AGAIN,
        KRule::K5 => "several smaller methods",
    }
}

fn linking_means(rule: LRule) -> &'static str
    ensures { result.now ≡ the_linking_means rule }
{
    match rule {
        LRule::L1 => {
            "a class that is not among the files, or a type or a constant that this machine \
                does not have"
        }
        LRule::L2 => "no such member, or a constant or member that does not fit the instruction",
        LRule::L3 => "a private member of another class",
        LRule::L4 => {
            "a <clinit>, init, run or done that is not static, a <clinit> that takes or returns \
                something, or no run where there are workers"
        }
        LRule::L5 => "the name of a class or of a member that is there already",
        LRule::L6 => "a superclass other than Object, an interface, or an abstract class",
        LRule::L7 => "a final field is written outside of its constructor or initializer",
        LRule::L8 => "the classes and static fields need more words than the heap has",
        LRule::L9 => {
            "a <clinit>, or init(), run(int) or done() of the first class, that is static \
             synchronized"
        }
    }
}

fn linking_instead(rule: LRule) -> &'static str
    ensures { result.now ≡ the_linking_instead rule }
{
    match rule {
        LRule::L1 => {
            "the files of all classes that are used; an int for another number or a char; \
                Object or this for a class object; a method of your own for the library's; an \
                exception without a message"
        }
        LRule::L2 => {
            "println of an int, and of nothing else; a loop for arraycopy; all classes \
                compiled together"
        }
        LRule::L3 => "the member without private",
        LRule::L4 => "the file of the entry class first; public static void run(int)",
        LRule::L5 => "each class once, under a name of its own",
        LRule::L6 => {
            "a field that holds the other object; one of the twelve throwables; the class \
                itself as the type"
        }
        LRule::L7 => "the field without final",
        LRule::L8 => "a larger --heap",
        LRule::L9 => "a static synchronized method that it calls",
    }
}

fn verifying_means(rule: VRule) -> &'static str
    ensures { result.now ≡ the_verifying_means rule }
{
    match rule {
        VRule::V1 => "the stack has too few values",
        VRule::V2 => "the stack has more values than max_stack says",
        VRule::V3 => "a local or an argument has no place among max_locals",
        VRule::V4 => {
            "a value of another type than the instruction takes, or a catch type that is no \
                throwable"
        }
        VRule::V5 => "two ways to the instruction bring stacks of different depths",
        VRule::V6 => "the code falls off its end",
        VRule::V7 => {
            "an object that no constructor has finished is used, kept over a jump back or in \
                covered code, or returned from, or one that is finished is constructed again"
        }
        VRule::V8 => "a return that does not fit the descriptor of the method",
    }
}

fn verifying_instead(rule: VRule) -> &'static str
    ensures { result.now ≡ the_verifying_instead rule }
{
    match rule {
        VRule::V1 | VRule::V2 | VRule::V3 | VRule::V5 | VRule::V6 | VRule::V7 | VRule::V8 => AGAIN,
        VRule::V4 => TOGETHER,
    }
}

fn tagging_means(rule: SRule) -> &'static str
    ensures { result.now ≡ the_tagging_means rule }
{
    match rule {
        SRule::S1 => {
            "a monitor is entered on a value that is neither this nor a copy that dup made"
        }
        SRule::S2 => "a monitor is left that is not the innermost one held",
        SRule::S3 => "two ways to the instruction hold different monitors",
        SRule::S4 => {
            "a return, or an instruction that may throw and that no catch-all row covers, while \
                a monitor is held"
        }
    }
}

fn tagging_instead(rule: SRule) -> &'static str
    ensures { result.now ≡ the_tagging_instead rule }
{
    match rule {
        SRule::S1 => {
            "a synchronized block or method, as javac writes it; a method that makes the object, \
                where a loop locks it and makes it anew"
        }
        SRule::S2 | SRule::S3 | SRule::S4 => STRUCTURED,
    }
}

fn assembling_means(rule: ARule) -> &'static str
    ensures { result.now ≡ the_assembling_means rule }
{
    match rule {
        ARule::A1 => {
            "a line has no form at its place, a number is outside its field, or the text \
                stops early"
        }
        ARule::A2 => "all lines have their forms, and they list no class",
    }
}

fn assembling_instead(rule: ARule) -> &'static str
    ensures { result.now ≡ the_assembling_instead rule }
{
    match rule {
        ARule::A1 | ARule::A2 => LISTING,
    }
}

/// What a rule refuses.
#[tactic(auto, unfolding(crate::specs::Sentences::means))]
pub fn means(rule: Rule) -> &'static str
    ensures { result.now ≡ the_means rule }
{
    match rule {
        Rule::C(rule) => reading_means(rule),
        Rule::K(rule) => decoding_means(rule),
        Rule::L(rule) => linking_means(rule),
        Rule::V(rule) => verifying_means(rule),
        Rule::S(rule) => tagging_means(rule),
        Rule::A(rule) => assembling_means(rule),
    }
}

/// What is accepted in the place of what a rule refuses.
#[tactic(auto, unfolding(crate::specs::Sentences::instead))]
pub fn instead(rule: Rule) -> &'static str
    ensures { result.now ≡ the_instead rule }
{
    match rule {
        Rule::C(rule) => reading_instead(rule),
        Rule::K(rule) => decoding_instead(rule),
        Rule::L(rule) => linking_instead(rule),
        Rule::V(rule) => verifying_instead(rule),
        Rule::S(rule) => tagging_instead(rule),
        Rule::A(rule) => assembling_instead(rule),
    }
}
