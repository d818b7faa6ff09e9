//! What the methods break that others call, and which of them call themselves.

ghost use Rattle.std.specs.Prelude.{◌≡◌, ◌*◌, ◌≤◌, ◌<◌, length, slice_get, slice_index_or, false};
ghost use Rattle.std.specs.Prelude.{IfOk};
ghost use Rattle.jvm_types.specs.ProgramInvariant.{IsProgram};
ghost use Rattle.jvm_types.specs.declared.limits.TheConstants.{MOST_INSTRUCTIONS as most};
ghost use Rattle.checked_program.specs.TaggedCode.{tagged_by};
ghost use Rattle.guard_analysis.specs.CallGraph.{call_graph};
ghost use Rattle.guard_analysis.specs.Faults.{AreCallees, breaking_nodes, grade_at, grade_of};
ghost use Rattle.guard_analysis.specs.Faults.{grades_before};
ghost use Rattle.graph_closure.specs.LeastSet.{IsGraph};

use crate::call_graph::{call_graph, mode_at};
use crate::calls::call_at;
use crate::faults::{fault_at, node_breaks};
use checked_program::{Mode, Tags, Uses};
use graph_closure::{leading, recurring};
use jvm_types::{MethodInfo, Program, Rows};
use std::alloc::{AllocError, Global};

/// Of each node of the graph of calls, where sections on a class are on one class: whether calls
/// lead from it to a method that breaks a rule, and whether they lead to one that calls itself.
#[derive(Debug, Drop)]
pub(crate) struct Callees {
    pub(crate) class: u16,
    pub(crate) breaks: Vec<bool>,
    pub(crate) recurs: Vec<bool>,
}

fn breaking_nodes(
    alloc: Global,
    p: &Program,
    uses: &Uses,
    tags: &Rows<Tags>,
    class: u16,
) -> Result<Vec<bool>, AllocError>
    requires few { length p.now.methods ≤ most }
    ensures { IfOk result
        (λ v. v.items ≡ breaking_nodes p.now uses.now tags.now class (3 * length p.now.methods)) }
{
    let mut breaking = Vec::new(alloc);
    for a in 0..3 * p.methods.len() {
        breaking.push(node_breaks(p, uses, tags, a / 3, mode_at(class, a)))?;
    }
    Ok(breaking)
}

/// The flag at a place; false where there are not so many.
pub fn flag_at(flags: &[bool], i: usize) -> bool
    ensures { result ≡ slice_index_or flags.now i false }
{
    if i < flags.len() { flags[i] } else { false }
}

impl Callees {
    pub(crate) fn of(
        alloc: Global,
        p: &Program,
        uses: &Uses,
        tags: &Rows<Tags>,
        class: u16,
    ) -> Result<Callees, AllocError>
        requires program { IsProgram p.now }
        requires few { length p.now.methods ≤ most }
        requires graph { IsGraph (3 * length p.now.methods) (call_graph p.now tags.now).from
            (call_graph p.now tags.now).to }
        ensures are { IfOk result (λ c.
            AreCallees p.now (tagged_by tags.now) uses.now c.class c.breaks.items c.recurs.items) }
        ensures class { IfOk result (λ c. c.class ≡ class) }
    {
        let graph = call_graph(alloc, p, tags)?;
        let breaking = breaking_nodes(alloc, p, uses, tags, class)?;
        let breaks = leading(
            alloc,
            graph.from.as_slice(),
            graph.to.as_slice(),
            breaking.as_slice(),
        )?;
        let recurs = recurring(
            alloc,
            graph.from.as_slice(),
            graph.to.as_slice(),
            3 * p.methods.len(),
        )?;
        Ok(Callees {
            class,
            breaks,
            recurs,
        })
    }

    /// The first rule that forbids a section an instruction which breaks this rule itself and calls
    /// this node.
    fn grade_of(&self, fault: u8, call: Option<u32>) -> u8
        ensures { result ≡ grade_of fault call self.now.breaks.items self.now.recurs.items }
    {
        if fault != 0 {
            return fault;
        }
        match call {
            Some(b) => {
                if flag_at(self.breaks.as_slice(), b as usize) {
                    6
                } else if flag_at(self.recurs.as_slice(), b as usize) {
                    7
                } else {
                    0
                }
            }
            None => 0,
        }
    }

    /// The first rule that forbids a section of this method, which runs it so, each of its
    /// instructions; 0 for none.
    pub(crate) fn grades(
        &self,
        alloc: Global,
        p: &Program,
        uses: &Uses,
        mode: Mode,
        method: u32,
        m: &MethodInfo,
        tags: &Tags,
    ) -> Result<Vec<u8>, AllocError>
        requires few { length p.now.methods ≤ most }
        ensures { IfOk result (λ v.
            v.items ≡ grades_before p.now uses.now self.now.breaks.items self.now.recurs.items
            mode method m.now tags.now.frames (length m.now.code)) }
    {
        let mut grades = Vec::new(alloc);
        for i in 0..m.code.len() {
            let fault = fault_at(p, uses, method as usize, mode, m, tags, i);
            let call = call_at(p, mode, m, tags, i);
            grades.push(self.grade_of(fault, call))?;
        }
        Ok(grades)
    }
}
