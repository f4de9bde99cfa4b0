// The attached sync marker: its test and its search.
#![tactic(auto)]

mod hunt;
mod lanes;
mod searching;
mod table;
mod testing;
mod walking;
mod window;

pub use searching::search;
pub use testing::test;

// The marker's form: as it is, or with all bits inverted.
#[derive(Clone, Copy, Debug, PartialEq, Eq)]
pub enum Form {
    True,
    Complement,
}

// The form that octets are nearer to, and its wrong bits: what an accepted test answers.
#[derive(Clone, Copy, Debug, PartialEq, Eq)]
pub struct Near {
    pub form: Form,
    pub wrong: u32,
}

// What an accepted search answers. Places are bit positions; `looked` is how many of them were looked at.
#[derive(Clone, Copy, Debug, PartialEq, Eq)]
pub enum Searched {
    Found {
        place: u64,
        form: Form,
        wrong: u32,
        looked: u64,
    },
    Absent {
        looked: u64,
    },
    Spent {
        place: u64,
        looked: u64,
    },
}
