//! The integer parameters (The TeXbook, chapter 24), in the order of the book.
ghost use Rattle.std.specs.Prelude.{◌≡◌, ◌<◌};
ghost use Rattle.tx_prim.specs.Integers.{all_integers, integer_name, integer_number, initial_integer};

/// An integer parameter.
#[derive(Clone, Copy)]
pub enum IntegerParameter {
    Pretolerance,
    Tolerance,
    Hbadness,
    Vbadness,
    Linepenalty,
    Hyphenpenalty,
    Exhyphenpenalty,
    Binoppenalty,
    Relpenalty,
    Clubpenalty,
    Widowpenalty,
    Displaywidowpenalty,
    Brokenpenalty,
    Predisplaypenalty,
    Postdisplaypenalty,
    Interlinepenalty,
    Floatingpenalty,
    Outputpenalty,
    Doublehyphendemerits,
    Finalhyphendemerits,
    Adjdemerits,
    Looseness,
    Pausing,
    Holdinginserts,
    Tracingonline,
    Tracingmacros,
    Tracingstats,
    Tracingparagraphs,
    Tracingpages,
    Tracingoutput,
    Tracinglostchars,
    Tracingcommands,
    Tracingrestores,
    Language,
    Uchyph,
    Lefthyphenmin,
    Righthyphenmin,
    Globaldefs,
    Defaulthyphenchar,
    Defaultskewchar,
    Escapechar,
    Endlinechar,
    Newlinechar,
    Maxdeadcycles,
    Hangafter,
    Fam,
    Mag,
    Delimiterfactor,
    Time,
    Day,
    Month,
    Year,
    Showboxbreadth,
    Showboxdepth,
    Errorcontextlines,
}

/// When the run began, as its words say: the year, the month from 1 on, the day from 1 on, and the minutes since
/// midnight.
#[derive(Clone, Copy)]
pub struct Moment {
    pub year: i32,
    pub month: i32,
    pub day: i32,
    pub time: i32,
}

/// All integer parameters, in the order of the book.
const ALL: [IntegerParameter; 55] = [
    IntegerParameter::Pretolerance,
    IntegerParameter::Tolerance,
    IntegerParameter::Hbadness,
    IntegerParameter::Vbadness,
    IntegerParameter::Linepenalty,
    IntegerParameter::Hyphenpenalty,
    IntegerParameter::Exhyphenpenalty,
    IntegerParameter::Binoppenalty,
    IntegerParameter::Relpenalty,
    IntegerParameter::Clubpenalty,
    IntegerParameter::Widowpenalty,
    IntegerParameter::Displaywidowpenalty,
    IntegerParameter::Brokenpenalty,
    IntegerParameter::Predisplaypenalty,
    IntegerParameter::Postdisplaypenalty,
    IntegerParameter::Interlinepenalty,
    IntegerParameter::Floatingpenalty,
    IntegerParameter::Outputpenalty,
    IntegerParameter::Doublehyphendemerits,
    IntegerParameter::Finalhyphendemerits,
    IntegerParameter::Adjdemerits,
    IntegerParameter::Looseness,
    IntegerParameter::Pausing,
    IntegerParameter::Holdinginserts,
    IntegerParameter::Tracingonline,
    IntegerParameter::Tracingmacros,
    IntegerParameter::Tracingstats,
    IntegerParameter::Tracingparagraphs,
    IntegerParameter::Tracingpages,
    IntegerParameter::Tracingoutput,
    IntegerParameter::Tracinglostchars,
    IntegerParameter::Tracingcommands,
    IntegerParameter::Tracingrestores,
    IntegerParameter::Language,
    IntegerParameter::Uchyph,
    IntegerParameter::Lefthyphenmin,
    IntegerParameter::Righthyphenmin,
    IntegerParameter::Globaldefs,
    IntegerParameter::Defaulthyphenchar,
    IntegerParameter::Defaultskewchar,
    IntegerParameter::Escapechar,
    IntegerParameter::Endlinechar,
    IntegerParameter::Newlinechar,
    IntegerParameter::Maxdeadcycles,
    IntegerParameter::Hangafter,
    IntegerParameter::Fam,
    IntegerParameter::Mag,
    IntegerParameter::Delimiterfactor,
    IntegerParameter::Time,
    IntegerParameter::Day,
    IntegerParameter::Month,
    IntegerParameter::Year,
    IntegerParameter::Showboxbreadth,
    IntegerParameter::Showboxdepth,
    IntegerParameter::Errorcontextlines,
];

impl IntegerParameter {
    /// All integer parameters, each once.
    #[tactic(auto, unfolding(crate::specs::Integers::all_integers))]
    pub fn all() -> &'static [IntegerParameter]
        ensures { result.now ≡ all_integers }
    {
        &ALL
    }

    /// The parameter's name, without its escape character.
    #[tactic(auto, unfolding(crate::specs::Integers::integer_name))]
    pub fn name(self) -> &'static [u8]
        ensures { result.now ≡ integer_name self }
    {
        match self {
            IntegerParameter::Pretolerance => b"pretolerance",
            IntegerParameter::Tolerance => b"tolerance",
            IntegerParameter::Hbadness => b"hbadness",
            IntegerParameter::Vbadness => b"vbadness",
            IntegerParameter::Linepenalty => b"linepenalty",
            IntegerParameter::Hyphenpenalty => b"hyphenpenalty",
            IntegerParameter::Exhyphenpenalty => b"exhyphenpenalty",
            IntegerParameter::Binoppenalty => b"binoppenalty",
            IntegerParameter::Relpenalty => b"relpenalty",
            IntegerParameter::Clubpenalty => b"clubpenalty",
            IntegerParameter::Widowpenalty => b"widowpenalty",
            IntegerParameter::Displaywidowpenalty => b"displaywidowpenalty",
            IntegerParameter::Brokenpenalty => b"brokenpenalty",
            IntegerParameter::Predisplaypenalty => b"predisplaypenalty",
            IntegerParameter::Postdisplaypenalty => b"postdisplaypenalty",
            IntegerParameter::Interlinepenalty => b"interlinepenalty",
            IntegerParameter::Floatingpenalty => b"floatingpenalty",
            IntegerParameter::Outputpenalty => b"outputpenalty",
            IntegerParameter::Doublehyphendemerits => b"doublehyphendemerits",
            IntegerParameter::Finalhyphendemerits => b"finalhyphendemerits",
            IntegerParameter::Adjdemerits => b"adjdemerits",
            IntegerParameter::Looseness => b"looseness",
            IntegerParameter::Pausing => b"pausing",
            IntegerParameter::Holdinginserts => b"holdinginserts",
            IntegerParameter::Tracingonline => b"tracingonline",
            IntegerParameter::Tracingmacros => b"tracingmacros",
            IntegerParameter::Tracingstats => b"tracingstats",
            IntegerParameter::Tracingparagraphs => b"tracingparagraphs",
            IntegerParameter::Tracingpages => b"tracingpages",
            IntegerParameter::Tracingoutput => b"tracingoutput",
            IntegerParameter::Tracinglostchars => b"tracinglostchars",
            IntegerParameter::Tracingcommands => b"tracingcommands",
            IntegerParameter::Tracingrestores => b"tracingrestores",
            IntegerParameter::Language => b"language",
            IntegerParameter::Uchyph => b"uchyph",
            IntegerParameter::Lefthyphenmin => b"lefthyphenmin",
            IntegerParameter::Righthyphenmin => b"righthyphenmin",
            IntegerParameter::Globaldefs => b"globaldefs",
            IntegerParameter::Defaulthyphenchar => b"defaulthyphenchar",
            IntegerParameter::Defaultskewchar => b"defaultskewchar",
            IntegerParameter::Escapechar => b"escapechar",
            IntegerParameter::Endlinechar => b"endlinechar",
            IntegerParameter::Newlinechar => b"newlinechar",
            IntegerParameter::Maxdeadcycles => b"maxdeadcycles",
            IntegerParameter::Hangafter => b"hangafter",
            IntegerParameter::Fam => b"fam",
            IntegerParameter::Mag => b"mag",
            IntegerParameter::Delimiterfactor => b"delimiterfactor",
            IntegerParameter::Time => b"time",
            IntegerParameter::Day => b"day",
            IntegerParameter::Month => b"month",
            IntegerParameter::Year => b"year",
            IntegerParameter::Showboxbreadth => b"showboxbreadth",
            IntegerParameter::Showboxdepth => b"showboxdepth",
            IntegerParameter::Errorcontextlines => b"errorcontextlines",
        }
    }

    /// Which one it is in the book's order, from 0 on.
    #[tactic(auto, unfolding(crate::specs::Integers::integer_number))]
    pub fn number(self) -> usize
        ensures value { result ≡ integer_number self }
        ensures within { result < 55 }
    {
        self as usize
    }

    /// The value with which INITEX begins (TeX: The Program, section 240), in a run that began at this moment.
    #[tactic(auto, unfolding(crate::specs::Integers::initial_integer))]
    pub fn initial(self, begun: &Moment) -> i32
        ensures { result ≡ initial_integer begun.now self }
    {
        match self {
            IntegerParameter::Tolerance => 10000,
            IntegerParameter::Escapechar => 92,
            IntegerParameter::Endlinechar => 13,
            IntegerParameter::Maxdeadcycles => 25,
            IntegerParameter::Hangafter => 1,
            IntegerParameter::Mag => 1000,
            IntegerParameter::Time => begun.time,
            IntegerParameter::Day => begun.day,
            IntegerParameter::Month => begun.month,
            IntegerParameter::Year => begun.year,
            _ => 0,
        }
    }
}
