ghost use Rattle.std.specs.Prelude.{◌≡◌};

// What a line of the report begins with: `day`, or `run N` while run N is audited.
#[derive(Clone, Copy, PartialEq, Eq, Debug)]
pub enum Heading {
    Day,
    Run(u32),
}

// The heading that is open.
#[derive(Drop)]
pub struct HeadingRecord {
    pub heading: Heading,
}

// While it lives, the heading of a run is open; letting it go puts the saved heading back.
pub struct HeadingGuard<'a> {
    kept: &'a mut HeadingRecord,
    saved: Heading,
}

impl<'a> HeadingGuard<'a> {
    // Saves the open heading and opens that of `run`.
    pub fn over(kept: &'a mut HeadingRecord, run: u32) -> HeadingGuard<'a>
        ensures saved { result.saved ≡ kept.old.heading }
        ensures set { result.kept.now.heading ≡ Heading.Run run }
        ensures same { result.kept.ghost_name ≡ kept.entry.ghost_name }
    {
        let saved = kept.heading;
        kept.heading = Heading::Run(run);
        HeadingGuard { kept, saved }
    }

    // The heading that is open under the guard.
    pub fn heading(&self) -> Heading
        ensures { result ≡ self.now.kept.now.heading }
    {
        self.kept.heading
    }
}

impl Drop for HeadingGuard<'_> {
    fn drop(self)
        ensures { self.exit.0.now.heading ≡ self.entry.saved }
    {
        let HeadingGuard { kept, saved } = self;
        kept.heading = saved;
    }
}
