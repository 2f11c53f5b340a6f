//! What follows from the definitions.
ghost use Rattle.a429_logs.specs.GregorianCalendar.{KnownDates};
ghost use Rattle.a429_logs.specs.KnownTimes.{KnownDays, KnownExponents, KnownOrders, KnownTicks};
ghost use Rattle.a429_logs.specs.Logs.{TimesNeverFall};

/// The times of the words of a log never fall, nor do they from one log to the next.
pub fn times_never_fall()
    ensures { TimesNeverFall }
{}

/// The calendar has the days that calendars say.
pub fn dates_are_known()
    ensures { KnownDates }
{}

/// What some times say: the definitions, by examples.
pub fn times_are_known()
    ensures ticks { KnownTicks }
    ensures exponents { KnownExponents }
    ensures days { KnownDays }
    ensures orders { KnownOrders }
{}
