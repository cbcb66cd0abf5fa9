//! What the words of a run set.
ghost use Rattle.std.specs.Prelude.{◌≡◌, ◌≢◌, ◌≤◌, ◌↔◌, ◌^◌, ◌++◌, ℕ, List, Some, None, IsTrue, IsSome, IfSome, IfNone, map, string_bytes};
ghost use Rattle.std.specs.Char.{is_ascii_digit};
ghost use Rattle.std.specs.List.{flat_map, list_all};
ghost use Rattle.tool_words.specs.Told.{IsTold, IsToldAlso, MayStand, told_at};
ghost use Rattle.tool_words.specs.Words.{IsAllowed, IsInRange, IsNumeral, Number, Setting, flag_of_kind, number_of, words_of};
ghost use Rattle.tool_words.specs.declared.settings.Kind.{Kind};

/// The kinds of settings that have a number.
#[derive(Clone, Copy, Debug, PartialEq, Eq)]
pub enum Kind {
    Workers,
    Rows,
    Partitions,
    Seed,
}

/// What the words read so far have set.
#[derive(Clone, Copy, Debug, Default)]
pub struct Told {
    pub workers: Option<u64>,
    pub rows: Option<u64>,
    pub partitions: Option<u64>,
    pub seed: Option<u64>,
    pub serial: bool,
}

impl Kind {
    /// Whether a setting of this kind may have the number.
    fn may_have(self, number: u64) -> bool
        ensures { IsTrue result ↔ IsInRange self number }
    {
        match self {
            Kind::Workers => (1..=256).contains(&number),
            Kind::Rows => (1..=1 << 20).contains(&number),
            Kind::Partitions => (1..=1024).contains(&number),
            Kind::Seed => true,
        }
    }
}

impl Told {
    /// Also this number; none where one of its kind is set.
    fn with_number(self, kind: Kind, number: u64) -> Option<Told>
        ensures some { IfSome result (λ after. IsToldAlso self kind number after) }
        ensures new { IfSome result (λ _. told_at self kind ≡ None) }
        ensures none { IfNone result (IsSome (told_at self kind)) }
    {
        match kind {
            Kind::Workers if self.workers.is_none() => Some(Told {
                workers: Some(number),
                ..self
            }),
            Kind::Rows if self.rows.is_none() => Some(Told {
                rows: Some(number),
                ..self
            }),
            Kind::Partitions if self.partitions.is_none() => Some(Told {
                partitions: Some(number),
                ..self
            }),
            Kind::Seed if self.seed.is_none() => Some(Told {
                seed: Some(number),
                ..self
            }),
            _ => None,
        }
    }

    /// Also that the run is serial; none where that is set.
    fn with_serial(self) -> Option<Told>
        ensures some { IfSome result (λ after. IsTrue after.serial × ((kind : Kind) → told_at after kind ≡ told_at self kind)) }
        ensures new { IfSome result (λ _. ¬ IsTrue self.serial) }
        ensures none { IfNone result (IsTrue self.serial) }
    {
        if self.serial {
            None
        } else {
            Some(Told {
                serial: true,
                ..self
            })
        }
    }
}

/// What the words set, beside what is told; none where they are no settings, or set one a second time.
pub fn read_settings(words: &[String], told: Told) -> Option<Told>
    ensures some { (seen : List Setting) → IsTold told seen → IfSome result (λ after. (more : List Setting) × (map string_bytes words.now ≡ flat_map words_of more) × IsTold after (seen ++ more)) }
    ensures none { (seen : List Setting) → IsTold told seen → IfNone result ((more : List Setting) → map string_bytes words.now ≡ flat_map words_of more → ¬ MayStand (seen ++ more)) }
{
    let Some((flag, rest)) = words.split_first() else {
        return Some(told);
    };
    if flag.as_str() == "--serial" {
        return read_settings(rest, told.with_serial()?);
    }
    let kind = kind_of(flag.as_str())?;
    let (numeral, rest) = rest.split_first()?;
    let number = read_number(kind, numeral.as_str())?;
    read_settings(rest, told.with_number(kind, number)?)
}

/// The kind that a flag names.
fn kind_of(flag: &str) -> Option<Kind>
    ensures some { IfSome result (λ kind. flag.now ≡ flag_of_kind kind) }
    ensures none { IfNone result ((kind : Kind) → flag.now ≢ flag_of_kind kind) }
{
    match flag {
        "--workers" => Some(Kind::Workers),
        "--rows" => Some(Kind::Rows),
        "--partitions" => Some(Kind::Partitions),
        "--seed" => Some(Kind::Seed),
        _ => None,
    }
}

/// The number that a word writes, where one of that kind may have it.
fn read_number(kind: Kind, word: &str) -> Option<u64>
    ensures some { IfSome result (λ n. IsAllowed (Number kind word.now) × (n ≡ number_of word.now)) }
    ensures none { IfNone result (¬ IsAllowed (Number kind word.now)) }
{
    let number = read_numeral(word)?;
    if kind.may_have(number) {
        Some(number)
    } else {
        None
    }
}

/// The number that a word of 1 to 20 digits writes, where it has 64 bits at most.
fn read_numeral(word: &str) -> Option<u64>
    ensures some { IfSome result (λ n. IsNumeral word.now × (n ≡ number_of word.now)) }
    ensures none { IfNone result (IsNumeral word.now → 2 ^ 64 ≤ number_of word.now) }
{
    if is_numeral(word) {
        word.parse::<u64>().ok()
    } else {
        None
    }
}

/// Whether a word has 1 to 20 characters, all of them digits.
fn is_numeral(word: &str) -> bool
    ensures { IsTrue result ↔ IsNumeral word.now }
{
    !word.is_empty() && word.len() <= 20 && has_digits_alone(word)
}

/// Whether no character of a word is anything but a digit.
fn has_digits_alone(word: &str) -> bool
    ensures { result ≡ list_all is_ascii_digit word.now }
{
    word.bytes().all(|byte| byte.is_ascii_digit())
}
