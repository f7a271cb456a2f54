//! What the indexes hold, and what an exchange makes of it: laws of the definitions, under either rule for ties.

ghost use Rattle.adr_model.specs.declared.entry.Tie.{Tie};
ghost use Rattle.adr_lines.specs.Exchange.{AreApart, FillsTheIndex, FitsTheIndex, IsUndone, KeepsTheIndex, MakesTheIndex};

/// Where the indexes hold the entries of the old events, and some of those go and others come, `Indexes::exchange`
/// may be called, and then they hold the entries of the new ones; and they hold those of the old ones as long as no
/// entry changes, as where room is made. Its reverse may be called too, and has its room wherever room was made for
/// both. The body does nothing.
pub fn exchange_laws()
    ensures fits { (tie : Tie) → FitsTheIndex tie }
    ensures makes { (tie : Tie) → MakesTheIndex tie }
    ensures keeps { (tie : Tie) → KeepsTheIndex tie }
    ensures undone { IsUndone }
{}

/// Groups that have the entries of events of different numbers have none twice, so that `Indexes::of` may be called
/// with them where each type stands once; and then the indexes hold the entries of those events, in whatever order they
/// were given. The body does nothing.
pub fn filling_laws()
    ensures apart { (tie : Tie) → AreApart tie }
    ensures fills { (tie : Tie) → FillsTheIndex tie }
{}
