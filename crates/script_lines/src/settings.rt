//! The settings of a run, by their keys.

ghost use Rattle.std.specs.Prelude.{◌≡◌};
ghost use Rattle.script_lines.specs.Settings.{setting, with_setting, least_of, most_of, default_of, key_of, setting_or, keeps_order, is_unset};

/// What a `set` line sets.
#[derive(Clone, Copy)]
pub enum Key {
    /// The lifetime of a PDU, in ticks.
    Life,
    /// The retransmission time, in ticks.
    T1,
    /// The window time, in ticks.
    W,
    /// The inactivity time, in ticks.
    I,
    /// The most sendings of a TPDU.
    N,
    /// The references of a system.
    Refs,
    /// The credit of an end at first.
    Credit,
    /// The ticks between hellos; 0 is none.
    Ct,
    /// The holding time of hellos, in seconds.
    Hold,
}

/// The settings that were set.
#[derive(Clone, Copy)]
pub struct Settings {
    pub life: Option<u32>,
    pub t1: Option<u32>,
    pub w: Option<u32>,
    pub i: Option<u32>,
    pub n: Option<u32>,
    pub refs: Option<u32>,
    pub credit: Option<u32>,
    pub ct: Option<u32>,
    pub hold: Option<u32>,
}

/// The key with this word.
pub fn key_of(word: &str) -> Option<Key>
    ensures { result ≡ key_of word.now }
{
    if word == "life" {
        Some(Key::Life)
    } else if word == "t1" {
        Some(Key::T1)
    } else if word == "w" {
        Some(Key::W)
    } else if word == "i" {
        Some(Key::I)
    } else if word == "n" {
        Some(Key::N)
    } else if word == "refs" {
        Some(Key::Refs)
    } else if word == "credit" {
        Some(Key::Credit)
    } else if word == "ct" {
        Some(Key::Ct)
    } else if word == "hold" {
        Some(Key::Hold)
    } else {
        None
    }
}

/// The least value of a key.
pub fn least_of(key: Key) -> u32
    ensures { result ≡ least_of key }
{
    match key {
        Key::N => 2,
        Key::Credit | Key::Ct => 0,
        Key::Life | Key::T1 | Key::W | Key::I | Key::Refs | Key::Hold => 1,
    }
}

/// The greatest value of a key.
pub fn most_of(key: Key) -> u32
    ensures { result ≡ most_of key }
{
    match key {
        Key::N => 16,
        Key::Refs => 64,
        Key::Credit => 15,
        Key::Life | Key::T1 | Key::W | Key::I | Key::Ct | Key::Hold => 255,
    }
}

/// The value of a key that is not set.
pub fn default_of(key: Key) -> u32
    ensures { result ≡ default_of key }
{
    match key {
        Key::Life => 32,
        Key::T1 => 8,
        Key::W => 20,
        Key::I => 60,
        Key::N => 4,
        Key::Refs => 64,
        Key::Credit => 8,
        Key::Ct => 0,
        Key::Hold => 20,
    }
}

impl Settings {
    /// Nothing is set.
    pub fn new() -> Settings
        ensures { result ≡ record { life = None; t1 = None; w = None; i = None; n = None; refs = None; credit = None; ct = None; hold = None } }
    {
        Settings {
            life: None,
            t1: None,
            w: None,
            i: None,
            n: None,
            refs: None,
            credit: None,
            ct: None,
            hold: None,
        }
    }

    /// Whether no key is set.
    pub fn is_unset(self) -> bool
        ensures { result ≡ is_unset self }
    {
        self.life.is_none()
            && self.t1.is_none()
            && self.w.is_none()
            && self.i.is_none()
            && self.n.is_none()
            && self.refs.is_none()
            && self.credit.is_none()
            && self.ct.is_none()
            && self.hold.is_none()
    }

    /// The value that was set for a key.
    pub fn get(self, key: Key) -> Option<u32>
        ensures { result ≡ setting self key }
    {
        match key {
            Key::Life => self.life,
            Key::T1 => self.t1,
            Key::W => self.w,
            Key::I => self.i,
            Key::N => self.n,
            Key::Refs => self.refs,
            Key::Credit => self.credit,
            Key::Ct => self.ct,
            Key::Hold => self.hold,
        }
    }

    /// The value of a key, set or not.
    pub fn value(self, key: Key) -> u32
        ensures { result ≡ setting_or self key }
    {
        match self.get(key) {
            Some(value) => value,
            None => default_of(key),
        }
    }

    /// With this value for a key.
    pub fn with(self, key: Key, value: u32) -> Settings
        ensures { result ≡ with_setting self key value }
    {
        let mut settings = self;
        match key {
            Key::Life => settings.life = Some(value),
            Key::T1 => settings.t1 = Some(value),
            Key::W => settings.w = Some(value),
            Key::I => settings.i = Some(value),
            Key::N => settings.n = Some(value),
            Key::Refs => settings.refs = Some(value),
            Key::Credit => settings.credit = Some(value),
            Key::Ct => settings.ct = Some(value),
            Key::Hold => settings.hold = Some(value),
        }
        settings
    }

    /// Whether i stays above w.
    pub fn keeps_order(self) -> bool
        ensures { result ≡ keeps_order self }
    {
        self.value(Key::W) < self.value(Key::I)
    }
}
