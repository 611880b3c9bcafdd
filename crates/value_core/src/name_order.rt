// Names in after-order, so that they can be the keys of ordered maps.
ghost use Rattle.std.specs.Prelude.{Some, refl};
ghost use Rattle.std.specs.Cmp;
ghost use Rattle.std.specs.Cmp.{partial_order_from_agreeing_total};
ghost use Rattle.std.specs.Ordering.{eq_by_cmp};
ghost use Rattle.value_core.specs.Name.{after_cmp};
ghost use Rattle.value_core.specs.NameOrder.{after_cmp_total, same_name_equiv};

use crate::Name;
use std::cmp::Ordering;

impl PartialEq for Name {
    ghost eq = { eq_by_cmp after_cmp };

    ghost laws = { Cmp.partial_equiv_from_equiv same_name_equiv };

    fn eq(&self, other: &Name) -> bool {
        self.cmp_after(other).is_eq()
    }
}

impl Eq for Name {
    ghost laws = { same_name_equiv };
}

impl PartialOrd for Name {
    ghost partial_cmp = { λ x y. Some (after_cmp x y) };

    ghost laws = { partial_order_from_agreeing_total after_cmp after_cmp_total (λ x y. refl) (λ x y. refl) };

    fn partial_cmp(&self, other: &Name) -> Option<Ordering> {
        Some(self.cmp_after(other))
    }
}

impl Ord for Name {
    ghost cmp = { after_cmp };

    ghost total = { after_cmp_total };

    ghost matches_partial_cmp = { λ x y. refl };

    ghost matches_eq = { λ x y. refl };

    fn cmp(&self, other: &Name) -> Ordering {
        self.cmp_after(other)
    }
}
