//! The body of a script's handler.
ghost use Rattle.std.specs.Prelude.{◌≡◌, map, IfOk};
ghost use Rattle.ek_types.specs.Listing.{items_of};
ghost use Rattle.ek_types.specs.Property.{number_of};
ghost use Rattle.ek_call.specs.Meaning.{form_of, handler_of, joined};
ghost use Rattle.handler_code.specs.Bodies.{params_of, forms_of};

use ek_call::{Forms, HandlerDef};
use ek_types::{Copied, Mem, SymList};

/// The parameters of a handler that a script defines, and the forms that it runs.
#[derive(Drop)]
pub struct Body {
    params: SymList,
    forms: Forms,
}

impl Body {
    /// A copy of those of a definition.
    pub fn of(def: &HandlerDef) -> Mem<Body>
        ensures params { IfOk result (λ body. params_of body ≡ (handler_of def.now).params) }
        ensures forms { IfOk result (λ body. forms_of body ≡ (handler_of def.now).body) }
    {
        let params = def.params.copy()?;
        Ok(Body {
            params,
            forms: def.body.copy()?,
        })
    }

    /// The parameters, in their order.
    pub fn params(&self) -> &SymList
        ensures { map number_of (items_of result.now) ≡ params_of self.now }
    {
        &self.params
    }

    /// The forms, in their order.
    pub fn forms(&self) -> &Forms
        ensures { joined (map form_of (items_of result.now)) ≡ forms_of self.now }
    {
        &self.forms
    }

    /// The same parameters and forms again.
    pub fn copy(&self) -> Mem<Body>
        ensures params { IfOk result (λ body. params_of body ≡ params_of self.now) }
        ensures forms { IfOk result (λ body. forms_of body ≡ forms_of self.now) }
    {
        let params = self.params.copy()?;
        Ok(Body {
            params,
            forms: self.forms.copy()?,
        })
    }
}
