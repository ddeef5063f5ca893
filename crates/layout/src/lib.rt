// The definitions of this crate stand in specs/, their laws in proofs/.
#![tactic(auto)]

// A remark: what is wrong with a member of a structure. Four numbers, since callers in C lend a list of these.
#[repr(C)]
#[derive(Clone, Copy, Debug, Default, PartialEq, Eq)]
pub struct Remark {
    pub kind: u32,
    pub structure: u32,
    pub member: u32,
    pub detail: u32,
}
