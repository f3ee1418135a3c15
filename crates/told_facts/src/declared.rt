//! What a script declares.

use crate::commands::put_members;
use crate::fields::{
    comma, put_answer, put_named, put_number_or_null, put_option, put_text, put_truth,
};
use crate::lines::{ScriptLine, lanes_in};
use ft_base::{Act, Ctx, FuncNo, Kind, TaskAct, TaskNo, Turn, Who};
use ft_io::{Pieces, Sink};
use ft_job::{Job, ModRow, Trigger};
use module_table::ModuleNames;
use trace_lines::put_number;
use trace_print::Names;
use trace_views::Named;
use user_specs::Spec;

/// Puts the fact of the script itself, and of each thing that it declares.
pub(crate) fn put_declared<K: Sink>(
    pieces: &mut Pieces,
    sink: &mut K,
    names: &Names<'_>,
    modules: &ModuleNames,
    lines: &[ScriptLine<'_>],
) {
    let job = names.job();
    put_head(pieces, sink, names, modules.len(), lanes_in(lines));
    put_functions(pieces, sink, job);
    put_modules(pieces, sink, job, modules);
    put_users(pieces, sink, names);
    put_triggers(pieces, sink, job);
    put_cpus(pieces, sink, job);
    put_tasks(pieces, sink, names);
    put_turns(pieces, sink, job.schedule().turns.as_slice());
    put_loads(pieces, sink, names);
}

/// Puts the fact of the script itself.
pub(crate) fn put_head<K: Sink>(
    pieces: &mut Pieces,
    sink: &mut K,
    names: &Names<'_>,
    modules: u32,
    lanes: u32,
) {
    let job = names.job();
    put_named(
        pieces,
        sink,
        b"{\"fact\": \"script\", \"version\": ",
        u32::from(job.version()),
    );
    put_named(pieces, sink, b", \"depth\": ", job.frames());
    put_named(pieces, sink, b", \"slots\": ", u32::from(job.tramps()));
    put_named(pieces, sink, b", \"ring\": ", job.ring());
    put_truth(pieces, sink, b", \"tracing\": ", job.tracing());
    put_named(pieces, sink, b", \"functions\": ", job.table().len());
    put_named(pieces, sink, b", \"modules\": ", modules);
    put_named(pieces, sink, b", \"users\": ", job.users());
    put_named(
        pieces,
        sink,
        b", \"triggers\": ",
        job.triggers().len() as u32,
    );
    put_named(pieces, sink, b", \"cpus\": ", job.cpus().len() as u32);
    put_named(pieces, sink, b", \"tasks\": ", job.tasks());
    put_named(pieces, sink, b", \"lanes\": ", lanes);
    pieces.put(sink, b"}\n");
}

/// Puts the fact of each function.
pub(crate) fn put_functions<K: Sink>(pieces: &mut Pieces, sink: &mut K, job: &Job) {
    let table = job.table();
    for f in 0..table.len() {
        put_named(pieces, sink, b"{\"fact\": \"function\", \"number\": ", f);
        put_text(pieces, sink, b", \"name\": \"", table.name(FuncNo(f)));
        put_option(pieces, sink, b", \"module\": ", table.module(FuncNo(f)));
        pieces.put(sink, b"}\n");
    }
}

/// Puts the fact of each module.
pub(crate) fn put_modules<K: Sink>(
    pieces: &mut Pieces,
    sink: &mut K,
    job: &Job,
    modules: &ModuleNames,
) {
    for m in 0..modules.len() {
        put_named(pieces, sink, b"{\"fact\": \"module\", \"number\": ", m);
        put_text(pieces, sink, b", \"name\": \"", modules.name(m));
        put_truth(pieces, sink, b", \"loaded\": ", !job.absent().contains(&m));
        pieces.put(sink, b"}\n");
    }
}

fn kind_name(kind: Kind) -> &'static str {
    match kind {
        Kind::Function => "function",
        Kind::Graph => "graph",
        Kind::Fprobe { .. } => "fprobe",
        Kind::Profile => "profile",
    }
}

/// Puts the fact of each user.
pub(crate) fn put_users<K: Sink>(pieces: &mut Pieces, sink: &mut K, names: &Names<'_>) {
    let mut u: u32 = 0;
    for spec in names.job().specs() {
        put_user(pieces, sink, names, u, spec);
        u = u.saturating_add(1);
    }
}

fn put_user<K: Sink>(pieces: &mut Pieces, sink: &mut K, names: &Names<'_>, u: u32, spec: &Spec) {
    put_named(pieces, sink, b"{\"fact\": \"user\", \"number\": ", u);
    put_text(pieces, sink, b", \"name\": \"", spec.name.as_str());
    put_text(pieces, sink, b", \"kind\": \"", kind_name(spec.kind));
    put_truth(pieces, sink, b", \"exit\": ", spec.kind.has_exit());
    put_truth(pieces, sink, b", \"cancel\": ", spec.kind.cancels());
    put_truth(pieces, sink, b", \"regs\": ", spec.regs);
    put_truth(pieces, sink, b", \"pid\": ", spec.pid);
    match spec.ipmodify {
        Some(func) => put_option(
            pieces,
            sink,
            b", \"ipmodify\": ",
            Some(names.function(func)),
        ),
        None => put_option(pieces, sink, b", \"ipmodify\": ", None),
    }
    match spec.act {
        Some(Act::CallIn(func)) => put_text(
            pieces,
            sink,
            b", \"act\": \"call\", \"calls\": \"",
            names.function(func),
        ),
        Some(Act::IrqIn(func)) => put_text(
            pieces,
            sink,
            b", \"act\": \"irq\", \"calls\": \"",
            names.function(func),
        ),
        None => pieces.put(sink, b", \"act\": null, \"calls\": null"),
    }
    pieces.put(sink, b"}\n");
}

/// Puts the fact of each trigger.
pub(crate) fn put_triggers<K: Sink>(pieces: &mut Pieces, sink: &mut K, job: &Job) {
    let mut number: u32 = 0;
    for trigger in job.triggers() {
        put_trigger(pieces, sink, number, trigger);
        number = number.saturating_add(1);
    }
}

fn put_trigger<K: Sink>(pieces: &mut Pieces, sink: &mut K, number: u32, trigger: &Trigger) {
    put_named(
        pieces,
        sink,
        b"{\"fact\": \"trigger\", \"number\": ",
        number,
    );
    put_truth(pieces, sink, b", \"on\": ", trigger.on);
    put_number_or_null(pieces, sink, b", \"limit\": ", trigger.limit);
    pieces.put(sink, b", \"functions\": [");
    put_members(pieces, sink, &trigger.set);
    pieces.put(sink, b"]}\n");
}

/// Puts the fact of each CPU.
pub(crate) fn put_cpus<K: Sink>(pieces: &mut Pieces, sink: &mut K, job: &Job) {
    for (number, cpu) in job.cpus().iter().enumerate() {
        put_named(
            pieces,
            sink,
            b"{\"fact\": \"cpu\", \"number\": ",
            number as u32,
        );
        put_named(pieces, sink, b", \"quantum\": ", cpu.quantum);
        pieces.put(sink, b"}\n");
    }
}

/// Puts the fact of each task.
pub(crate) fn put_tasks<K: Sink>(pieces: &mut Pieces, sink: &mut K, names: &Names<'_>) {
    for t in 0..names.job().tasks() {
        let task = names.task(TaskNo(t));
        put_named(pieces, sink, b"{\"fact\": \"task\", \"number\": ", t);
        put_named(pieces, sink, b", \"pid\": ", task.pid);
        put_named(pieces, sink, b", \"cpu\": ", task.cpu);
        pieces.put(sink, b", \"acts\": [");
        if let Some(acts) = names.job().acts(TaskNo(t)) {
            put_acts(pieces, sink, names, acts);
        }
        pieces.put(sink, b"]}\n");
    }
}

fn put_acts<K: Sink>(pieces: &mut Pieces, sink: &mut K, names: &Names<'_>, acts: &[TaskAct]) {
    let mut is_first = true;
    for act in acts {
        pieces.put(sink, comma(is_first).as_bytes());
        put_act(pieces, sink, names, *act);
        is_first = false;
    }
}

fn put_act<K: Sink>(pieces: &mut Pieces, sink: &mut K, names: &Names<'_>, act: TaskAct) {
    match act {
        TaskAct::Call(func) => put_text(pieces, sink, b"\"call ", names.function(func)),
        TaskAct::Ret => pieces.put(sink, b"\"ret\""),
        TaskAct::Raise(Ctx::Normal) => pieces.put(sink, b"\"normal\""),
        TaskAct::Raise(Ctx::Softirq) => pieces.put(sink, b"\"softirq\""),
        TaskAct::Raise(Ctx::Irq) => pieces.put(sink, b"\"irq\""),
        TaskAct::Raise(Ctx::Nmi) => pieces.put(sink, b"\"nmi\""),
        TaskAct::Lower => pieces.put(sink, b"\"iret\""),
        TaskAct::After(commands) => {
            put_named(pieces, sink, b"\"after ", commands);
            pieces.put(sink, b"\"");
        }
    }
}

/// Puts the fact of each turn of the schedule.
pub(crate) fn put_turns<K: Sink>(pieces: &mut Pieces, sink: &mut K, turns: &[Turn]) {
    for turn in turns {
        pieces.put(sink, b"{\"fact\": \"turn\", \"who\": ");
        match turn.who {
            Who::Control => pieces.put(sink, b"\"k\""),
            Who::Cpu(cpu) => {
                put_named(pieces, sink, b"\"", cpu.0);
                pieces.put(sink, b"\"");
            }
            Who::All => pieces.put(sink, b"\"all\""),
        }
        put_named(pieces, sink, b", \"count\": ", turn.count);
        pieces.put(sink, b"}\n");
    }
}

/// Puts the fact of each line that loads or unloads a module.
pub(crate) fn put_loads<K: Sink>(pieces: &mut Pieces, sink: &mut K, names: &Names<'_>) {
    for row in names.job().modules() {
        put_load(pieces, sink, names, row);
    }
}

fn put_load<K: Sink>(pieces: &mut Pieces, sink: &mut K, names: &Names<'_>, row: &ModRow) {
    put_text(
        pieces,
        sink,
        b"{\"fact\": \"",
        if row.load { "load" } else { "unload" },
    );
    put_text(pieces, sink, b", \"module\": \"", names.module(row.module));
    pieces.put(sink, b", \"answer\": \"");
    put_answer(pieces, sink, names, row.answer);
    put_named(pieces, sink, b"\", \"first\": ", row.first);
    put_named(pieces, sink, b", \"last\": ", row.last);
    pieces.put(sink, b"}\n");
}
