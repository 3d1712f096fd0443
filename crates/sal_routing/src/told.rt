use sal_mail::{Fault, Join, Reply};
use sal_source::Step;
use sal_value::{List, Name, Text, Value};

/// What a turn of a theatre tells.
#[derive(Drop)]
pub struct Told {
    pub log: List<Step>,
    pub printed: List<Text>,
    pub faults: List<Fault>,
    /// To calls from outside, each with its number.
    pub answers: List<(u64, Value)>,
    /// Actors that were made, each with the theatre where it stands.
    pub made: List<(Name, u8)>,
    /// Actors that left, each with the theatre to which it goes.
    pub moved: List<(Name, u8)>,
    /// Joins that a step left open, each with its owner.
    pub opened: List<(Name, Join)>,
    /// The replies that a step gave, wherever they go.
    pub given: List<(Reply, Value)>,
}
