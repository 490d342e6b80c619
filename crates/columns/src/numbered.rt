// What rows are held against.

ghost use Rattle.columns.specs.Rising.{Rising};

/// The tables whose rows have numbers of their own, which rise; how many rows others have; what was drawn and stored.
#[derive(Clone, Copy)]
pub struct Known<'a> {
    pub transitions: &'a [[u32; 8]],
    pub regions: &'a [[u32; 8]],
    pub states: u32,
    pub entries: u32,
    pub invokes: u32,
    pub parameters: u32,
    pub ids: u32,
    pub docs: u32,
    pub used: u32,
    ghost transitions_rise: { Rising transitions.now },
    ghost regions_rise: { Rising regions.now },
}
