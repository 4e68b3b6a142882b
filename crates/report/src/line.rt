use crate::heading::Heading;

// What a line says after its heading.
#[derive(Clone, Copy, PartialEq, Eq, Debug)]
pub enum Saying {
    // All of a run's steps are accepted: how many.
    Ok { steps: u32 },
    // A run is refused: the refusal's number, its layer and its place.
    No { number: u32, layer: u32, place: u32 },
    // The day's runs, and how many of them are ok.
    Totals { runs: u32, ok: u32 },
    // The day's header is refused: the refusal's number.
    Broken { number: u32 },
}

// A line of the report.
#[derive(Clone, Copy, PartialEq, Eq, Debug)]
pub struct Line {
    pub heading: Heading,
    pub saying: Saying,
}
