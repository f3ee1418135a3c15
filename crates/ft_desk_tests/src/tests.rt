//! What accepted commands store, and a copy of a line. What they are answered, and what is traced then, is
//! asked of the program (tools/ftlog/checks/command_answers.py).

mod bench;
mod copies;
mod plans;

use bench::User;
use ft_base::{Answer, Kind};
use site_bytes::Insn;

const ACCEPTED: Answer = Answer::Accepted;

const PLAIN: User = (Kind::Function, false, None);

const GRAPH: User = (Kind::Graph, false, None);

const PROBE: User = (
    Kind::Fprobe {
        exit: true,
        cancel: false,
    },
    false,
    None,
);

const NOP: Insn = Insn::Nop;

const LIST: Insn = Insn::List;

const FIRST: Insn = Insn::Own(0);
