// The functions that C calls, by evandrusk_c, and nothing else: numbers and lent bytes in, one call, a struct out.
#![tactic(auto)]

ghost use Rattle.std.specs.Prelude.{◌≡◌, length};
ghost use Rattle.compile.specs.Answers.{left_in};
ghost use Rattle.compile.specs.Compiled.{compile as compile_of};
ghost use Rattle.evandrusk.specs.Answers.{day_of_date_answer, date_of_day_answer, iso_of_day_answer, day_of_iso_answer};
ghost use Rattle.evandrusk.specs.Plans.{check_answer, NextAnswer, PreviousAnswer, local_answer, offset_answer};
ghost use Rattle.evandrusk.specs.Sheets.{compile_answer};

use answers::{EvkChecked, EvkCompiled, EvkDate, EvkDay, EvkFound, EvkIso, EvkOffset};
use calendar::{date, iso};

pub mod answers;

pub fn evk_day_of_date(year: i64, month: i64, day: i64) -> EvkDay
    ensures { result ≡ day_of_date_answer year month day }
{
    date::day_of_date(
        signed::natural(year),
        signed::natural(month),
        signed::natural(day),
    )
    .into()
}

pub fn evk_date_of_day(day: i64) -> EvkDate
    ensures { result ≡ date_of_day_answer day }
{
    date::date_of_day(signed::bias_day(day)).into()
}

pub fn evk_iso_of_day(day: i64) -> EvkIso
    ensures { result ≡ iso_of_day_answer day }
{
    iso::iso_of_day(signed::bias_day(day)).into()
}

pub fn evk_day_of_iso(year: i64, week: i64, weekday: i64) -> EvkDay
    ensures { result ≡ day_of_iso_answer year week weekday }
{
    iso::day_of_iso(
        signed::natural(year),
        signed::natural(week),
        signed::natural(weekday),
    )
    .into()
}

#[tactic(auto, using(crate::proofs::Edges::compile_edge))]
pub fn evk_compile(sheet: &[u8], plan: &mut [u8]) -> EvkCompiled
    ensures answer { result ≡ compile_answer (compile_of sheet.now (length plan.old)) }
    ensures plan { plan.new ≡ left_in plan.old (compile_of sheet.now (length plan.old)) }
{
    compile::compile(sheet, plan).into()
}

#[tactic(auto, using(crate::proofs::Edges::check_edge))]
pub fn evk_check(plan: &[u8]) -> EvkChecked
    ensures { result ≡ check_answer plan.now }
{
    load::check(plan).into()
}

#[tactic(auto, using(crate::proofs::Edges::next_edge))]
pub fn evk_next(plan: &[u8], instant: i64) -> EvkFound
    ensures { NextAnswer plan.now instant result }
{
    answers::nearest(next::next(plan, signed::bias_instant(instant)))
}

#[tactic(auto, using(crate::proofs::Edges::previous_edge))]
pub fn evk_previous(plan: &[u8], instant: i64) -> EvkFound
    ensures { PreviousAnswer plan.now instant result }
{
    answers::nearest(next::previous(plan, signed::bias_instant(instant)))
}

#[tactic(auto, using(crate::proofs::Edges::local_edge))]
pub fn evk_instant_of_local(plan: &[u8], local_minute: i64) -> EvkFound
    ensures { result ≡ local_answer plan.now local_minute }
{
    answers::local(next::instant_of_local(plan, answers::minute_of(local_minute)))
}

#[tactic(auto, using(crate::proofs::Edges::offset_edge))]
pub fn evk_offset_at(plan: &[u8], instant: i64) -> EvkOffset
    ensures { result ≡ offset_answer plan.now instant }
{
    next::offset_at(plan, signed::bias_instant(instant)).into()
}
