ghost use Rattle.std.specs.Prelude.{◌≡◌};

use crate::dim::Dim;
use crate::unit::Unit;

const MASS: Dim = Dim {
    mass: 1,
    ..Dim::NONE
};

const LENGTH: Dim = Dim {
    length: 1,
    ..Dim::NONE
};

const TIME: Dim = Dim {
    time: 1,
    ..Dim::NONE
};

const CURRENT: Dim = Dim {
    current: 1,
    ..Dim::NONE
};

const MONEY: Dim = Dim {
    money: 1,
    ..Dim::NONE
};

const BITS: Dim = Dim {
    bits: 1,
    ..Dim::NONE
};

const FREQUENCY: Dim = Dim {
    time: -1,
    ..Dim::NONE
};

const FORCE: Dim = Dim {
    mass: 1,
    length: 1,
    time: -2,
    ..Dim::NONE
};

const ENERGY: Dim = Dim {
    mass: 1,
    length: 2,
    time: -2,
    ..Dim::NONE
};

const POWER: Dim = Dim {
    mass: 1,
    length: 2,
    time: -3,
    ..Dim::NONE
};

const VOLTAGE: Dim = Dim {
    mass: 1,
    length: 2,
    time: -3,
    current: -1,
    ..Dim::NONE
};

const CHARGE: Dim = Dim {
    current: 1,
    time: 1,
    ..Dim::NONE
};

impl Unit {
    ghost use Rattle.std.specs.Option.{option_map};
    ghost use Rattle.unit_core.specs.Measure.{measure};
    ghost use Rattle.unit_core.specs.UnitTable.{current_units, data_units, electric_units, find, length_units, mass_units, mechanical_units, money_units, time_units, unit_named};

    fn of_mass(name: &str) -> Option<Unit>
        ensures { option_map measure result ≡ find name.now mass_units }
    {
        match name {
            "g" => Some(Unit::whole(MASS, 1)),
            "kg" => Some(Unit::whole(MASS, 1_000)),
            "mg" => Some(Unit::part(MASS, 1_000)),
            "t" => Some(Unit::whole(MASS, 1_000_000)),
            _ => None,
        }
    }

    fn of_length(name: &str) -> Option<Unit>
        ensures { option_map measure result ≡ find name.now length_units }
    {
        match name {
            "mm" => Some(Unit::whole(LENGTH, 1)),
            "cm" => Some(Unit::whole(LENGTH, 10)),
            "m" => Some(Unit::whole(LENGTH, 1_000)),
            "km" => Some(Unit::whole(LENGTH, 1_000_000)),
            _ => None,
        }
    }

    fn of_time(name: &str) -> Option<Unit>
        ensures { option_map measure result ≡ find name.now time_units }
    {
        match name {
            "s" => Some(Unit::whole(TIME, 1)),
            "ms" => Some(Unit::part(TIME, 1_000)),
            "min" => Some(Unit::whole(TIME, 60)),
            "h" => Some(Unit::whole(TIME, 3_600)),
            "day" => Some(Unit::whole(TIME, 86_400)),
            _ => None,
        }
    }

    fn of_current(name: &str) -> Option<Unit>
        ensures { option_map measure result ≡ find name.now current_units }
    {
        match name {
            "mA" => Some(Unit::whole(CURRENT, 1)),
            "A" => Some(Unit::whole(CURRENT, 1_000)),
            _ => None,
        }
    }

    fn of_money(name: &str) -> Option<Unit>
        ensures { option_map measure result ≡ find name.now money_units }
    {
        match name {
            "cent" => Some(Unit::whole(MONEY, 1)),
            "USD" => Some(Unit::whole(MONEY, 100)),
            _ => None,
        }
    }

    fn of_data(name: &str) -> Option<Unit>
        ensures { option_map measure result ≡ find name.now data_units }
    {
        match name {
            "bit" => Some(Unit::whole(BITS, 1)),
            "byte" => Some(Unit::whole(BITS, 8)),
            "kbit" => Some(Unit::whole(BITS, 1_000)),
            "Mbit" => Some(Unit::whole(BITS, 1_000_000)),
            "kbyte" => Some(Unit::whole(BITS, 8_000)),
            "Mbyte" => Some(Unit::whole(BITS, 8_000_000)),
            _ => None,
        }
    }

    fn of_mechanics(name: &str) -> Option<Unit>
        ensures { option_map measure result ≡ find name.now mechanical_units }
    {
        match name {
            "Hz" => Some(Unit::whole(FREQUENCY, 1)),
            "N" => Some(Unit::whole(FORCE, 1_000_000)),
            "J" => Some(Unit::whole(ENERGY, 1_000_000_000)),
            "Wh" => Some(Unit::whole(ENERGY, 3_600_000_000_000)),
            "kWh" => Some(Unit::whole(ENERGY, 3_600_000_000_000_000)),
            "mW" => Some(Unit::whole(POWER, 1_000_000)),
            "W" => Some(Unit::whole(POWER, 1_000_000_000)),
            "kW" => Some(Unit::whole(POWER, 1_000_000_000_000)),
            _ => None,
        }
    }

    fn of_electricity(name: &str) -> Option<Unit>
        ensures { option_map measure result ≡ find name.now electric_units }
    {
        match name {
            "V" => Some(Unit::whole(VOLTAGE, 1_000_000)),
            "mAh" => Some(Unit::whole(CHARGE, 3_600)),
            "Ah" => Some(Unit::whole(CHARGE, 3_600_000)),
            _ => None,
        }
    }

    /// The unit of that name, or `None` where the table has no such name.
    #[tactic(auto, unfolding(crate::specs::UnitTable::unit_named, crate::specs::UnitTable::units))]
    pub fn of(name: &str) -> Option<Unit>
        ensures { option_map measure result ≡ unit_named name.now }
    {
        if let Some(unit) = Unit::of_mass(name) {
            return Some(unit);
        }
        if let Some(unit) = Unit::of_length(name) {
            return Some(unit);
        }
        if let Some(unit) = Unit::of_time(name) {
            return Some(unit);
        }
        if let Some(unit) = Unit::of_current(name) {
            return Some(unit);
        }
        if let Some(unit) = Unit::of_money(name) {
            return Some(unit);
        }
        if let Some(unit) = Unit::of_data(name) {
            return Some(unit);
        }
        if let Some(unit) = Unit::of_mechanics(name) {
            return Some(unit);
        }
        Unit::of_electricity(name)
    }
}
