//! The data that the crates of the machine share: class files, outcomes of a run, and the
//! definitions that their contracts cite.
#![tactic(auto)]

pub mod call;
pub mod class_file;
pub mod class_laws;
pub mod class_numbers;
pub mod code;
pub mod code_attribute;
pub mod code_laws;
pub mod fixed_words;
pub mod flags;
pub mod gate;
pub mod index_kind;
pub mod limits;
pub mod link_laws;
pub mod op_row;
pub mod outcome;
pub mod program;
pub mod refusal;
pub mod site;
pub mod stack_move;
pub mod typing;

pub use call::Call;
pub use class_file::{Attr, ClassFile, Code, Constant, Handler, Member, MemberAttr};
pub use class_laws::{
    counts_fit, faults_inside, one_class, one_spelling, read_what_is_spelled, spelled_or_faulty,
};
pub use code::{Case, Cmp, Insn, Op};
pub use gate::{Gate, OpenGate};
pub use index_kind::IndexKind;
pub use lists::{Bytes, Room, Rows, Stack};
pub use op_row::{Given, OpRow, Want};
pub use outcome::{Counts, End, Outcome, Print, ThreadReport, Thrown};
pub use program::{FieldInfo, Kind, MethodInfo, Program, Row, Target};
pub use refusal::{
    ARule, CRule, KRule, LRule, NO_METHOD, Place, Rule, SRule, VRule, in_file, in_method,
};
pub use site::Site;
pub use stack_move::StackMove;
pub use typing::{TypeFrame, Typing, VType};
