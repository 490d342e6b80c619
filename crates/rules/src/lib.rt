// Question 2, row by row: a row's test is one expression, and its proof computes the expression against the schema.

#![tactic(auto)]

ghost use Rattle.std.specs.Prelude.{◌≡◌};
ghost use Rattle.definition.specs.Rows.{transition_columns, region_columns, datum_columns, parameter_columns, member_columns, opened_columns, open_region_columns, chart_columns, state_columns, invoke_columns, entry_columns};
ghost use Rattle.columns.specs.Sees.{RowTest};
ghost use Rattle.rules.specs.Each.{Each};

use columns::numbered::Known;
use columns::{inside, texts, up_to_next, zeros};
use definition::{RegionId, StateId, TransitionId};

pub fn transition_keeps(row: [u32; 8], k: &Known) -> bool
    ensures { RowTest k.now transition_columns row result }
{
    ((1 <= row[0]) & (row[0] <= k.ids))
        & ((row[1] <= k.docs)
            & (k.is_state(StateId(row[2]))
                & ((row[3] <= 1)
                    & ((row[4] <= 1)
                        & (k.region_or_zero(RegionId(row[5])) & inside(k.used, row[6], row[7]))))))
}

pub fn region_keeps(row: [u32; 8], k: &Known) -> bool
    ensures { RowTest k.now region_columns row result }
{
    ((1 <= row[0]) & (row[0] <= k.ids)) & zeros(&row[1..8])
}

pub fn datum_keeps(row: [u32; 8], k: &Known) -> bool
    ensures { RowTest k.now datum_columns row result }
{
    k.state_or_zero(StateId(row[0])) & (texts(&row[1..7], k.used) & zeros(&row[7..8]))
}

pub fn parameter_keeps(row: [u32; 8], k: &Known) -> bool
    ensures { RowTest k.now parameter_columns row result }
{
    ((1 <= row[0]) & (row[0] <= 3))
        & (k.parameter_owner_keeps(row[0], row[1]) & texts(&row[2..8], k.used))
}

pub fn member_keeps(row: [u32; 8], k: &Known) -> bool
    ensures { RowTest k.now member_columns row result }
{
    ((1 <= row[0]) & (row[0] <= 9))
        & (k.member_owner_keeps(row[0], row[1])
            & (k.member_value_keeps(row[0], row[2])
                & (inside(k.used, row[3], row[4]) & zeros(&row[5..8]))))
}

pub fn opened_keeps(row: [u32; 8], k: &Known) -> bool
    ensures { RowTest k.now opened_columns row result }
{
    (row[0] <= 27)
        & (k.state_or_zero(StateId(row[1]))
            & (k.transition_or_zero(TransitionId(row[2])) & zeros(&row[4..8])))
}

pub fn open_region_keeps(row: [u32; 8], k: &Known) -> bool
    ensures { RowTest k.now open_region_columns row result }
{
    k.region_or_zero(RegionId(row[0])) & zeros(&row[2..8])
}

pub fn chart_keeps(row: [u32; 24], k: &Known) -> bool
    ensures { RowTest k.now chart_columns row result }
{
    k.state_or_zero(StateId(row[0]))
        & (k.region_or_zero(RegionId(row[1]))
            & ((row[2] <= 1) & (texts(&row[3..9], k.used) & zeros(&row[9..24]))))
}

pub fn state_keeps(row: [u32; 24], k: &Known) -> bool
    ensures { RowTest k.now state_columns row result }
{
    inside(k.used, row[0], row[1])
        & ((row[2] <= k.docs)
            & (k.transition_or_zero(TransitionId(row[3]))
                & (k.state_or_zero(StateId(row[4]))
                    & ((row[5] <= 1)
                        & ((row[6] <= 1)
                            & ((row[7] <= 2)
                                & (up_to_next(row[8], k.parameters)
                                    & ((row[9] <= 1)
                                        & (texts(&row[10..14], k.used)
                                            & zeros(&row[14..24]))))))))))
}

pub fn invoke_keeps(row: [u32; 24], k: &Known) -> bool
    ensures { RowTest k.now invoke_columns row result }
{
    k.state_or_zero(StateId(row[0]))
        & ((row[1] <= 1)
            & (k.region_or_zero(RegionId(row[2]))
                & ((row[3] <= 1) & (texts(&row[4..20], k.used) & zeros(&row[20..24])))))
}

pub fn entry_keeps(row: [u32; 48], k: &Known) -> bool
    ensures { RowTest k.now entry_columns row result }
{
    k.region_or_zero(RegionId(row[0]))
        & (((1 <= row[1]) & (row[1] <= 8))
            & (k.state_or_zero(StateId(row[2]))
                & (k.content_keeps(row[1], RegionId(row[3]), RegionId(row[0]))
                    & (k.else_keeps(row[1], RegionId(row[4]), RegionId(row[0]))
                        & ((row[5] <= 1) & (texts(&row[6..44], k.used) & zeros(&row[44..48])))))))
}

/// Whether each row of a table keeps its columns' classes; `keeps` says it of a row and of what rows are held against.
pub fn rows_keep<T: Copy, K: Copy, F: Fn(T, K) -> bool>(table: &[T], k: K, keeps: F) -> bool
    requires { F.IsAlwaysCallable keeps }
    ensures { Each (λ x b. F.post keeps x k b) table.now result }
{
    for row in table {
        if !keeps(*row, k) {
            return false;
        }
    }
    true
}
