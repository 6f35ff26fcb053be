// The answers to calls, in lines.

use run::{Answer, Event};
use std::fmt::Display;
use std::io;

pub(crate) fn line(rt: &HostRuntime, answer: Answer) -> io::Result<()> {
    match answer {
        Answer::Charged => println!(rt; "charged"),
        Answer::Planned(granted) => println!(rt; "planned,{granted}"),
        Answer::Rewound => println!(rt; "rewound"),
        Answer::Came(event) => came(rt, event),
        Answer::PeriodIs(period) => read(rt, "period", period),
        Answer::RowIs(row) => read(rt, "row", row),
        Answer::Refused(refusal) => println!(rt; "refused,{refusal}"),
    }
}

fn came(rt: &HostRuntime, event: Event) -> io::Result<()> {
    match event {
        Event::Slice {
            repetition,
            frame,
            task,
            job,
            length,
        } => println!(rt; "slice,{repetition},{frame},{task},{job},{length}"),
        Event::FrameEnd { repetition, frame } => println!(rt; "end,{repetition},{frame}"),
    }
}

// What was read, behind its word, or that there is none.
fn read<T: Display + Drop>(rt: &HostRuntime, word: &str, found: Option<T>) -> io::Result<()> {
    match found {
        Some(found) => println!(rt; "{word},{found}"),
        None => println!(rt; "{word},none"),
    }
}
