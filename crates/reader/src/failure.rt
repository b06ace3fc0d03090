use rules::refusal::Fault;

// Why reading fails, and how many bytes are left there, the failing one among them.
#[derive(Clone, Copy, Debug, PartialEq, Eq)]
pub struct Failure {
    pub fault: Fault,
    pub left: usize,
}

// Why a line fails to be read, and the place of the failing byte, from 1.
#[derive(Clone, Copy, Debug, PartialEq, Eq)]
pub struct Misread {
    pub fault: Fault,
    pub place: usize,
}
