// The symbols that C links: include/evandrusk.h declares them. Each is the function of its name in evandrusk.
#![tactic(auto)]

ghost use Rattle.std.specs.Prelude.{◌≡◌, length};
ghost use Rattle.compile.specs.Answers.{left_in};
ghost use Rattle.compile.specs.Compiled.{compile as compile_of};
ghost use Rattle.evandrusk.specs.Answers.{day_of_date_answer, date_of_day_answer, iso_of_day_answer, day_of_iso_answer};
ghost use Rattle.evandrusk.specs.Plans.{check_answer, NextAnswer, PreviousAnswer, local_answer, offset_answer};
ghost use Rattle.evandrusk.specs.Sheets.{compile_answer};

use evandrusk::answers::{EvkChecked, EvkCompiled, EvkDate, EvkDay, EvkFound, EvkIso, EvkOffset};

#[unsafe(no_mangle)]
pub extern "C" fn evk_day_of_date(year: i64, month: i64, day: i64) -> EvkDay
    ensures { result ≡ day_of_date_answer year month day }
{
    evandrusk::evk_day_of_date(year, month, day)
}

#[unsafe(no_mangle)]
pub extern "C" fn evk_date_of_day(day: i64) -> EvkDate
    ensures { result ≡ date_of_day_answer day }
{
    evandrusk::evk_date_of_day(day)
}

#[unsafe(no_mangle)]
pub extern "C" fn evk_iso_of_day(day: i64) -> EvkIso
    ensures { result ≡ iso_of_day_answer day }
{
    evandrusk::evk_iso_of_day(day)
}

#[unsafe(no_mangle)]
pub extern "C" fn evk_day_of_iso(year: i64, week: i64, weekday: i64) -> EvkDay
    ensures { result ≡ day_of_iso_answer year week weekday }
{
    evandrusk::evk_day_of_iso(year, week, weekday)
}

#[unsafe(no_mangle)]
pub extern "C" fn evk_compile(sheet: &[u8], plan: &mut [u8]) -> EvkCompiled
    ensures answer { result ≡ compile_answer (compile_of sheet.now (length plan.old)) }
    ensures plan { plan.new ≡ left_in plan.old (compile_of sheet.now (length plan.old)) }
{
    evandrusk::evk_compile(sheet, plan)
}

#[unsafe(no_mangle)]
pub extern "C" fn evk_check(plan: &[u8]) -> EvkChecked
    ensures { result ≡ check_answer plan.now }
{
    evandrusk::evk_check(plan)
}

#[unsafe(no_mangle)]
pub extern "C" fn evk_next(plan: &[u8], instant: i64) -> EvkFound
    ensures { NextAnswer plan.now instant result }
{
    evandrusk::evk_next(plan, instant)
}

#[unsafe(no_mangle)]
pub extern "C" fn evk_previous(plan: &[u8], instant: i64) -> EvkFound
    ensures { PreviousAnswer plan.now instant result }
{
    evandrusk::evk_previous(plan, instant)
}

#[unsafe(no_mangle)]
pub extern "C" fn evk_instant_of_local(plan: &[u8], local_minute: i64) -> EvkFound
    ensures { result ≡ local_answer plan.now local_minute }
{
    evandrusk::evk_instant_of_local(plan, local_minute)
}

#[unsafe(no_mangle)]
pub extern "C" fn evk_offset_at(plan: &[u8], instant: i64) -> EvkOffset
    ensures { result ≡ offset_answer plan.now instant }
{
    evandrusk::evk_offset_at(plan, instant)
}
