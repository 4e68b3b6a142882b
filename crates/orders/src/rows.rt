// Each memory order means its own row of the table.
ghost use Rattle.std.specs.Prelude.{◌≡◌};
ghost use Rattle.orders.specs.Order.{Means};
ghost use Rattle.orders.specs.Tables.{no_fences, sc_takes, sc_before, ScKeeps, tso_takes, tso_before, TsoKeeps, pso_takes, pso_before, PsoKeeps, rmo_takes, rmo_before, RmoKeeps, ibm_takes, ibm_before, IbmKeeps, ia_takes, ia_before, ia_after, IaKeeps};
ghost use Rattle.orders.specs.Chosen.{any_takes, any_before, any_after, AnyKeeps, code_of};
ghost use Rattle.orders.specs.contracts.sc.ScMemoryOrder.TheImpl.{ghosts as sc};
ghost use Rattle.orders.specs.contracts.tso.TsoMemoryOrder.TheImpl.{ghosts as tso};
ghost use Rattle.orders.specs.contracts.pso.PsoMemoryOrder.TheImpl.{ghosts as pso};
ghost use Rattle.orders.specs.contracts.rmo.RmoMemoryOrder.TheImpl.{ghosts as rmo};
ghost use Rattle.orders.specs.contracts.ibm370.Ibm370MemoryOrder.TheImpl.{ghosts as ibm};
ghost use Rattle.orders.specs.contracts.ia64.Ia64MemoryOrder.TheImpl.{ghosts as ia};
ghost use Rattle.orders.specs.contracts.chosen.AnyOrderMemoryOrder.TheImpl.{ghosts as any};

use crate::chosen::AnyOrder;
use crate::ia64::Ia64;
use crate::ibm370::Ibm370;
use crate::pso::Pso;
use crate::rmo::Rmo;
use crate::sc::Sc;
use crate::tso::Tso;

// What each order takes, the fences that it sets and the pairs that it keeps are those of its row; the code of the one handed.
pub fn rows_stand(order: AnyOrder) -> u32
    ensures code { result ≡ code_of order }
    ensures sc { (o : Sc) → Means (sc.taken o) (sc.ahead o) (sc.behind o) (sc.keeps o) sc_takes sc_before no_fences ScKeeps }
    ensures tso { (o : Tso) → Means (tso.taken o) (tso.ahead o) (tso.behind o) (tso.keeps o) tso_takes tso_before no_fences TsoKeeps }
    ensures pso { (o : Pso) → Means (pso.taken o) (pso.ahead o) (pso.behind o) (pso.keeps o) pso_takes pso_before no_fences PsoKeeps }
    ensures rmo { (o : Rmo) → Means (rmo.taken o) (rmo.ahead o) (rmo.behind o) (rmo.keeps o) rmo_takes rmo_before no_fences RmoKeeps }
    ensures ibm370 { (o : Ibm370) → Means (ibm.taken o) (ibm.ahead o) (ibm.behind o) (ibm.keeps o) ibm_takes ibm_before no_fences IbmKeeps }
    ensures ia64 { (o : Ia64) → Means (ia.taken o) (ia.ahead o) (ia.behind o) (ia.keeps o) ia_takes ia_before ia_after IaKeeps }
    ensures chosen { Means (any.taken order) (any.ahead order) (any.behind order) (any.keeps order) (any_takes order) (any_before order) (any_after order) (AnyKeeps order) }
{
    u32::from(order)
}
