//! The types of payloads, and the one table that their names, codes and shapes come from.
ghost use Rattle.std.specs.Prelude.{◌≡◌, false, IsTrue};
ghost use Rattle.adr_refusal.specs.Answer.{Answers};
ghost use Rattle.adr_refusal.specs.Copy.{IsCopyOf};
ghost use Rattle.adr_value.specs.Names.{is_name, is_table_name};
ghost use Rattle.adr_value.specs.Payload.{type_of, type_in, signals, capacities, alerts, type_named, RowsAgree, NamesReturn, CodesReturn, PrivateNamesDiffer};

use crate::text::Name;
use adr_refusal::{Refusal, TryClone};
use std::alloc::Global;
use std::marker::Model;

/// What the values of a payload type must be. `Shape::fits` is the test.
#[derive(Clone, Copy, Debug, PartialEq, Eq)]
pub enum Shape {
    /// At least one value, the first a whole number of at least 0.
    Whole,
    /// At least one value, all numbers.
    Amount,
    /// At least one value, all points.
    Points,
    /// Texts, perhaps none.
    Notes,
    /// Any values.
    Any,
}

/// The name of a private type: 1 to 128 characters, and none of the table's names.
#[derive(Debug)]
pub struct PrivateName {
    name: Name,
}

// A function of its own, so that callers that let a value go need not look into it.
impl Drop for PrivateName {
    fn drop(self) {
        let PrivateName { name } = self;
        drop(name);
    }
}

impl Model for PrivateName {
    ghost use Rattle.std.specs.Prelude.{List, ℕ, ◌≡◌, false, IsTrue};
    ghost use Rattle.adr_value.specs.Names.{is_name, is_table_name};

    ghost Value = { List ℕ };

    ghost view = { λ n. n.name };

    ghost invariant = { λ n. IsTrue (is_name n.name) × (is_table_name n.name ≡ false) };
}

impl PrivateName {
    fn new(alloc: Global, text: &str) -> Result<PrivateName, Refusal>
        requires name { IsTrue (is_name text.now) }
        requires private { is_table_name text.now ≡ false }
        ensures { IsCopyOf result text.now }
    {
        Ok(PrivateName {
            name: Name::new(alloc, text)?,
        })
    }

    /// The name's characters.
    pub fn as_str(&self) -> &str
        ensures text { result.now ≡ self.now }
        ensures limit { IsTrue (is_name self.now) }
        ensures private { is_table_name self.now ≡ false }
    {
        self.name.as_str()
    }

    /// A copy that shares this name's memory, and takes no growth.
    ///
    /// # Errors
    ///
    /// `NoMemory` only where the count of its sharers is full.
    pub fn copy(&self) -> Result<PrivateName, Refusal>
        ensures { IsCopyOf result self.now }
    {
        Ok(PrivateName {
            name: self.name.copy()?,
        })
    }
}

/// The type of a payload: one of the 34 of the table, in the table's order, or a private one.
///
/// What each says is that of OpenADR 3.0 (Definition, event payload types); only `shape` is checked of the values. The
/// units and the currency of an amount are those of the program's or the event's payload descriptors.
#[derive(Debug)]
pub enum PayloadType {
    /// `SIMPLE`: the level of a basic demand response signal, 0 to 3, where 0 is normal operation.
    Simple,
    /// `PRICE`: the price of energy.
    Price,
    /// `CHARGE_STATE_SETPOINT`: the state of charge that a storage is to have.
    ChargeStateSetpoint,
    /// `DISPATCH_SETPOINT`: how much a resource is to consume.
    DispatchSetpoint,
    /// `DISPATCH_SETPOINT_RELATIVE`: how much more a resource is to consume than now, or less if below zero.
    DispatchSetpointRelative,
    /// `CONTROL_SETPOINT`: a setting whose meaning the resource knows.
    ControlSetpoint,
    /// `EXPORT_PRICE`: the price of energy that is given to the grid.
    ExportPrice,
    /// `GHG`: an estimate of the marginal emissions of greenhouse gases.
    Ghg,
    /// `CURVE`: points of a curve, such as volts against reactive power.
    Curve,
    /// `OLS`: the optimum load shape, each interval's part of the usage, 0 to 1.
    Ols,
    /// `IMPORT_CAPACITY_SUBSCRIPTION`: how much power a customer subscribed to take from the grid.
    ImportCapacitySubscription,
    /// `IMPORT_CAPACITY_RESERVATION`: how much power to take was granted beyond the subscription.
    ImportCapacityReservation,
    /// `IMPORT_CAPACITY_RESERVATION_FEE`: what it costs to reserve more power to take.
    ImportCapacityReservationFee,
    /// `IMPORT_CAPACITY_AVAILABLE`: how much more power to take may be reserved.
    ImportCapacityAvailable,
    /// `IMPORT_CAPACITY_AVAILABLE_PRICE`: the price of the power to take that may be reserved.
    ImportCapacityAvailablePrice,
    /// `EXPORT_CAPACITY_SUBSCRIPTION`: how much power a customer subscribed to give to the grid.
    ExportCapacitySubscription,
    /// `EXPORT_CAPACITY_RESERVATION`: how much power to give was granted beyond the subscription.
    ExportCapacityReservation,
    /// `EXPORT_CAPACITY_RESERVATION_FEE`: what it costs to reserve more power to give.
    ExportCapacityReservationFee,
    /// `EXPORT_CAPACITY_AVAILABLE`: how much more power to give may be reserved.
    ExportCapacityAvailable,
    /// `EXPORT_CAPACITY_AVAILABLE_PRICE`: the price of the power to give that may be reserved.
    ExportCapacityAvailablePrice,
    /// `IMPORT_CAPACITY_LIMIT`: the most power that a site may take from the grid.
    ImportCapacityLimit,
    /// `EXPORT_CAPACITY_LIMIT`: the most power that a site may give to the grid.
    ExportCapacityLimit,
    /// `ALERT_GRID_EMERGENCY`: the grid may soon fail to supply some customers, told in words.
    AlertGridEmergency,
    /// `ALERT_BLACK_START`: the grid is on its way back to normal operation.
    AlertBlackStart,
    /// `ALERT_POSSIBLE_OUTAGE`: customers may lose the supply of the grid.
    AlertPossibleOutage,
    /// `ALERT_FLEX_ALERT`: supply is scarce, and load is to move to other times.
    AlertFlexAlert,
    /// `ALERT_FIRE`: there is a risk of fire, which may interrupt the supply.
    AlertFire,
    /// `ALERT_FREEZING`: it is, or will be, so cold as to be of concern.
    AlertFreezing,
    /// `ALERT_WIND`: there is, or will be, wind so strong as to be of concern.
    AlertWind,
    /// `ALERT_TSUNAMI`: waves are expected that damage the coast.
    AlertTsunami,
    /// `ALERT_AIR_QUALITY`: the air is, or will be, so bad as to be of concern.
    AlertAirQuality,
    /// `ALERT_OTHER`: an alert of none of these kinds, told in words.
    AlertOther,
    /// `CTA2045_REBOOT`: passed to a device of CTA-2045, which restarts: 0 soft, 1 hard.
    Cta2045Reboot,
    /// `CTA2045_SET_OVERRIDE_STATUS`: passed to a device of CTA-2045: 0 for no override, 1 for one.
    Cta2045SetOverrideStatus,
    /// A type with a name that the table hasn't.
    Private(PrivateName),
}

/// The table of payload types, in three parts. `payload_table!(WHAT (ARGUMENTS))` makes the match of WHAT from its
/// rows, `payload_table!(@PART [@WHAT (ARGUMENTS)])` that of the rows of a part.
macro_rules! payload_table {
    (@type_of ($text:expr) $([$($case:ident $code:literal $name:literal $shape:ident,)*])*) => {
        match $text {
            $($($name => Some(PayloadType::$case),)*)*
            _ => None,
        }
    };
    (@name ($payload:expr, $text:ident, $private:expr) $([$($case:ident $code:literal $name:literal $shape:ident,)*])*) => {
        match $payload {
            $($(PayloadType::$case => $name,)*)*
            PayloadType::Private($text) => $private,
        }
    };
    (@code ($payload:expr) $([$($case:ident $code:literal $name:literal $shape:ident,)*])*) => {
        match $payload {
            $($(PayloadType::$case => $code,)*)*
            PayloadType::Private(_) => 34,
        }
    };
    (@of_code ($number:expr) $([$($case:ident $code:literal $name:literal $shape:ident,)*])*) => {
        match $number {
            $($($code => Some(PayloadType::$case),)*)*
            _ => None,
        }
    };
    (@copy ($payload:expr, $text:ident, $private:expr) $([$($case:ident $code:literal $name:literal $shape:ident,)*])*) => {
        match $payload {
            $($(PayloadType::$case => Ok(PayloadType::$case),)*)*
            PayloadType::Private($text) => $private,
        }
    };
    (@drop ($payload:expr) $([$($case:ident $code:literal $name:literal $shape:ident,)*])*) => {
        match $payload {
            $($(PayloadType::$case => {})*)*
            PayloadType::Private(private) => drop(private),
        }
    };
    (@shape ($payload:expr) $([$($case:ident $code:literal $name:literal $shape:ident,)*])*) => {
        match $payload {
            $($(PayloadType::$case => Shape::$shape,)*)*
            PayloadType::Private(_) => Shape::Any,
        }
    };
    (@signals [$($to:tt)*]) => {
        payload_table! { $($to)* [
            Simple 0 "SIMPLE" Whole,
            Price 1 "PRICE" Amount,
            ChargeStateSetpoint 2 "CHARGE_STATE_SETPOINT" Amount,
            DispatchSetpoint 3 "DISPATCH_SETPOINT" Amount,
            DispatchSetpointRelative 4 "DISPATCH_SETPOINT_RELATIVE" Amount,
            ControlSetpoint 5 "CONTROL_SETPOINT" Amount,
            ExportPrice 6 "EXPORT_PRICE" Amount,
            Ghg 7 "GHG" Amount,
            Curve 8 "CURVE" Points,
            Ols 9 "OLS" Amount,
        ] }
    };
    (@capacities [$($to:tt)*]) => {
        payload_table! { $($to)* [
            ImportCapacitySubscription 10 "IMPORT_CAPACITY_SUBSCRIPTION" Amount,
            ImportCapacityReservation 11 "IMPORT_CAPACITY_RESERVATION" Amount,
            ImportCapacityReservationFee 12 "IMPORT_CAPACITY_RESERVATION_FEE" Amount,
            ImportCapacityAvailable 13 "IMPORT_CAPACITY_AVAILABLE" Amount,
            ImportCapacityAvailablePrice 14 "IMPORT_CAPACITY_AVAILABLE_PRICE" Amount,
            ExportCapacitySubscription 15 "EXPORT_CAPACITY_SUBSCRIPTION" Amount,
            ExportCapacityReservation 16 "EXPORT_CAPACITY_RESERVATION" Amount,
            ExportCapacityReservationFee 17 "EXPORT_CAPACITY_RESERVATION_FEE" Amount,
            ExportCapacityAvailable 18 "EXPORT_CAPACITY_AVAILABLE" Amount,
            ExportCapacityAvailablePrice 19 "EXPORT_CAPACITY_AVAILABLE_PRICE" Amount,
            ImportCapacityLimit 20 "IMPORT_CAPACITY_LIMIT" Amount,
            ExportCapacityLimit 21 "EXPORT_CAPACITY_LIMIT" Amount,
        ] }
    };
    (@alerts [$($to:tt)*]) => {
        payload_table! { $($to)* [
            AlertGridEmergency 22 "ALERT_GRID_EMERGENCY" Notes,
            AlertBlackStart 23 "ALERT_BLACK_START" Notes,
            AlertPossibleOutage 24 "ALERT_POSSIBLE_OUTAGE" Notes,
            AlertFlexAlert 25 "ALERT_FLEX_ALERT" Notes,
            AlertFire 26 "ALERT_FIRE" Notes,
            AlertFreezing 27 "ALERT_FREEZING" Notes,
            AlertWind 28 "ALERT_WIND" Notes,
            AlertTsunami 29 "ALERT_TSUNAMI" Notes,
            AlertAirQuality 30 "ALERT_AIR_QUALITY" Notes,
            AlertOther 31 "ALERT_OTHER" Notes,
            Cta2045Reboot 32 "CTA2045_REBOOT" Any,
            Cta2045SetOverrideStatus 33 "CTA2045_SET_OVERRIDE_STATUS" Any,
        ] }
    };
    (@with_capacities $what:ident $arguments:tt $signals:tt) => {
        payload_table! { @capacities [@with_alerts $what $arguments $signals] }
    };
    (@with_alerts $what:ident $arguments:tt $signals:tt $capacities:tt) => {
        payload_table! { @alerts [@$what $arguments $signals $capacities] }
    };
    ($what:ident $arguments:tt) => {
        payload_table! { @signals [@with_capacities $what $arguments] }
    };
}

// A function of its own, so that callers that let a value go need not look into it.
impl Drop for PayloadType {
    fn drop(self) {
        payload_table!(drop(self))
    }
}

impl PayloadType {
    ghost use Rattle.adr_value.specs.Payload.{name_of, code_of, of_code, shape_of};

    /// The type of a name; case counts. A name that the table hasn't is that of a private type.
    ///
    /// # Errors
    ///
    /// `BadText` for a name that has not 1 to 128 characters; `NoMemory` where there is no room for a private one.
    pub fn type_of(alloc: Global, text: &str) -> Result<PayloadType, Refusal>
        ensures { Answers result (type_named text.now) }
    {
        if !Name::fits(text) {
            return Err(Refusal::BadText);
        }
        PayloadType::of_name(alloc, text)
    }

    #[tactic(auto, using(crate::proofs::PayloadParts::type_of_none, crate::proofs::PayloadParts::no_table_name))]
    fn of_name(alloc: Global, text: &str) -> Result<PayloadType, Refusal>
        requires { IsTrue (is_name text.now) }
        ensures { IsCopyOf result (type_of text.now) }
    {
        if let Some(signal) = signal_of_name(text) {
            return Ok(signal);
        }
        if let Some(capacity) = capacity_of_name(text) {
            return Ok(capacity);
        }
        match alert_of_name(text) {
            Some(alert) => Ok(alert),
            None => private(alloc, text),
        }
    }

    /// The name that bodies and scripts know the type by, which `type_of` reads back.
    pub fn name(&self) -> &str
        ensures { result.now ≡ name_of self.now }
    {
        payload_table!(name(self, text, text.as_str()))
    }

    /// The place in the table: 0 to 33, and 34 for each private type.
    pub fn code(&self) -> u8
        ensures { result ≡ code_of self.now }
    {
        payload_table!(code(self))
    }

    /// The type at a place of the table, or None from 34 on.
    pub fn of_code(code: u8) -> Option<PayloadType>
        ensures { result ≡ of_code code }
    {
        payload_table!(of_code(code))
    }

    /// What the type's values must be.
    pub fn shape(&self) -> Shape
        ensures { result ≡ shape_of self.now }
    {
        payload_table!(shape(self))
    }

    /// A type equal to this one, which takes no growth: a private name shares its memory.
    ///
    /// # Errors
    ///
    /// `NoMemory` only for a private type, where the count of its name's sharers is full.
    pub fn copy(&self) -> Result<PayloadType, Refusal>
        ensures { IsCopyOf result self.now }
    {
        payload_table!(copy(self, text, private_copy(text)))
    }
}

impl TryClone for PayloadType {
    fn try_clone(&self) -> Result<PayloadType, Refusal> {
        self.copy()
    }
}

fn signal_of_name(text: &str) -> Option<PayloadType>
    ensures { result ≡ type_in signals text.now }
{
    payload_table!(@signals [@type_of (text)])
}

fn capacity_of_name(text: &str) -> Option<PayloadType>
    ensures { result ≡ type_in capacities text.now }
{
    payload_table!(@capacities [@type_of (text)])
}

fn alert_of_name(text: &str) -> Option<PayloadType>
    ensures { result ≡ type_in alerts text.now }
{
    payload_table!(@alerts [@type_of (text)])
}

fn private(alloc: Global, text: &str) -> Result<PayloadType, Refusal>
    requires name { IsTrue (is_name text.now) }
    requires private { is_table_name text.now ≡ false }
    ensures { IsCopyOf result (PayloadType.Private text.now) }
{
    Ok(PayloadType::Private(PrivateName::new(alloc, text)?))
}

fn private_copy(name: &PrivateName) -> Result<PayloadType, Refusal>
    ensures { IsCopyOf result (PayloadType.Private name.now) }
{
    Ok(PayloadType::Private(name.copy()?))
}

/// The laws of the table: the functions agree with its rows, a name gives back itself, each of the 34 codes
/// gives back its type, and a private type has none of the table's names.
pub fn payload_laws()
    ensures rows { RowsAgree }
    ensures names { NamesReturn }
    ensures codes { CodesReturn }
    ensures private { PrivateNamesDiffer }
{}
