//! Runs a command of the command line over standard input and standard output, and tells on
//! standard error why one was refused, and what a run left over of its script.
#![tactic(auto)]

use cli_commands::program::program;
use cli_refusals::{
    Call, KeepingReader, kept_of, left_over_line, missed_line, print_schema, refusal_line,
    schema_kind,
};
use cli_replay::left_over::LeftOver;
use cli_shell::status::Status;
use script_forms::ScriptKind;
use smithy_types::{List, Text};
use std::process::ExitCode;
use std::{env, io};

fn main(rt: HostRuntime) -> ExitCode {
    let status = match command_line(&rt) {
        Ok(words) => match asked_schema(words.as_slice()) {
            Some(kind) => {
                let (status, _sink) = print_schema(rt.alloc(), kind, rt.stdout());
                status
            }
            None => {
                let kept = kept_of(first_word(words.as_slice()));
                let reader = KeepingReader::new(rt.alloc(), rt.stdin(), kept);
                let finished = program(&rt, rt.alloc(), words.as_slice(), reader, rt.stdout());
                tell(
                    &rt,
                    words.as_slice(),
                    finished.source.reader.all(),
                    finished.status,
                );
                if let Some(left) = finished.left_over {
                    tell_left_over(&rt, left);
                }
                finished.status
            }
        },
        Err(status) => refused_words(&rt, status),
    };
    ExitCode::from(status.number())
}

// Words that aren't UTF-8 were refused before any was read.
fn refused_words(rt: &HostRuntime, status: Status) -> Status {
    if status == Status::BadWords {
        let _said = eprintln!(rt; "smithy_replay: the arguments aren't UTF-8; try --help");
    }
    status
}

// The kind of scripts whose schema is asked for.
fn asked_schema(words: &[Text]) -> Option<ScriptKind> {
    match words {
        [first, second] => schema_kind(first.as_str(), second.as_str()),
        _ => None,
    }
}

// Says on standard error why a call was refused, or why a text is no print, where its input was
// kept. Where it can't be said, the status tells it.
fn tell(rt: &HostRuntime, words: &[Text], input: Option<&[u8]>, status: Status) {
    let Some(input) = input else {
        return;
    };
    let call = Call {
        command: first_word(words),
        words: words.len(),
        input,
    };
    if let Ok(Some(line)) = refusal_line(rt.alloc(), call, status) {
        let _said = eprintln!(rt; "smithy_replay: {line}");
    }
}

// Says on standard error what a run left over of its script: which question missed the next answer,
// and how many were left.
fn tell_left_over(rt: &HostRuntime, left: LeftOver) {
    if let Ok(Some(line)) = missed_line(rt.alloc(), left) {
        let _said = eprintln!(rt; "smithy_replay: {line}");
    }
    if let Ok(line) = left_over_line(rt.alloc(), left) {
        let _said = eprintln!(rt; "smithy_replay: {line}");
    }
}

// The first word, and no text where there is none.
fn first_word(words: &[Text]) -> &str {
    if words.is_empty() {
        return "";
    }
    words[0].as_str()
}

// The words behind the program's name.
fn command_line(rt: &HostRuntime) -> Result<List<Text>, Status> {
    let mut words = List::new();
    let mut arguments = match env::args(rt) {
        Ok(arguments) => arguments,
        Err(error) => return Err(bad_arguments(&error)),
    };
    arguments.next();
    for argument in arguments {
        let word = match Text::from_string(argument) {
            Ok(word) => spelled_out(word),
            Err(_) => return Err(Status::OutOfMemory),
        };
        if words.push(rt.alloc(), word).is_err() {
            return Err(Status::OutOfMemory);
        }
    }
    Ok(words)
}

// A word, or the command that it stands for.
fn spelled_out(word: Text) -> Text {
    if let Some(name) = whole_name(word.as_str()) {
        return Text::from_static(name);
    }
    word
}

// The command that a short form stands for.
fn whole_name(word: &str) -> Option<&'static str> {
    match word {
        "help" | "-h" => Some("--help"),
        "version" | "-V" => Some("--version"),
        _ => None,
    }
}

// Words that aren't UTF-8 are no command.
fn bad_arguments(error: &io::Error) -> Status {
    match error.kind() {
        io::ErrorKind::OutOfMemory => Status::OutOfMemory,
        _ => Status::BadWords,
    }
}
