use serial_model::Limits;
use value_core::Text;

/// What a command line says.
#[derive(Drop)]
pub enum Command {
    /// The run of the program in `file` by so many workers, from 1 to 64, within the limits. Its trace is written to `trace`, where
    /// that is named.
    Run {
        file: Text,
        workers: u32,
        limits: Limits,
        trace: Option<Text>,
    },
    /// The run of the program in `file`, within the limits, by the lines of the schedule in `schedule` and then to its end. Its
    /// trace is written to `trace`, where that is named.
    Schedule {
        file: Text,
        schedule: Text,
        limits: Limits,
        trace: Option<Text>,
    },
    /// The replay of the run that `trace` holds, of the program in `file`.
    Replay {
        file: Text,
        trace: Text,
    },
    /// The check of the program in `file`.
    Check {
        file: Text,
    },
    /// The text of the program that is made from these numbers: `number` from 0 to 2,147,483,647, and `size` from 1 to 10,000.
    Make {
        number: u32,
        size: u32,
    },
    /// The run of the program that is made from these numbers, by so many workers, from 1 to 64.
    Stress {
        number: u32,
        size: u32,
        workers: u32,
    },
}
