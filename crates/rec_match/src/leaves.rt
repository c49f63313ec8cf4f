//! The positions of the values of a row that has no symbol tests left. Whether a rule is
//! left-linear is noted in the leaf when the tree is built; of other rules the values are pushed
//! and compared.

ghost use Rattle.std.specs.Prelude.{◌≡◌, ◌<◌, ◌^◌, ◌++◌, [], length, All, IfOk, IfSome, Some};
ghost use Rattle.std.specs.Option.{option_map};
ghost use Rattle.rec_match.specs.Parts.{part_at, IsCode};
ghost use Rattle.rec_match.specs.Leaves.{
  number_position,
  code_places,
  ArePlaced,
  IsValue,
  PlacesValue,
};
ghost use Rattle.rec_match.specs.Placed.{ArePlaces};

use crate::forest::Place;
use crate::parts::{Code, Parts};
use crate::places::Places;
use rec_sorts::Meaning;
use std::alloc::{AllocError, Global};

/// Returns the first index of a number.
fn position(numbers: &[u32], number: u32) -> Option<u32>
    requires { length numbers.now < 2 ^ 32 }
    ensures { result ≡ number_position numbers.now number }
{
    for (i, x) in numbers.iter().enumerate() {
        if *x == number {
            return Some(i as u32);
        }
    }
    None
}

impl Parts {
    /// Appends the positions of a row's values. Returns false if the row has a symbol test left.
    pub fn place(
        &self,
        alloc: Global,
        codes: &[Code],
        places: &mut Vec<Place>,
    ) -> Result<bool, AllocError>
        requires codes { All (IsCode self.now) codes.now }
        requires few { length codes.now < 2 ^ 32 }
        ensures { IfOk result
            (ArePlaced (code_places self.now [] codes.now) places.old.items places.new.items) }
    {
        let mut variables: Vec<u32> = Vec::new(alloc);
        for code in codes {
            match self.parts[code.part as usize].meaning {
                Meaning::Symbol(_) => return Ok(false),
                Meaning::Variable(variable) => match position(&variables, variable) {
                    Some(value) => places.push(Place::Again {
                        register: code.register,
                        value,
                    })?,
                    None => {
                        variables.push(variable)?;
                        places.push(Place::First(code.register))?;
                    }
                },
            }
        }
        Ok(true)
    }

    /// Returns the positions of a row's values, or `None` if the row has a symbol test left.
    pub(crate) fn places_of(
        &self,
        alloc: Global,
        codes: &[Code],
    ) -> Result<Option<Vec<Place>>, AllocError>
        requires { All (IsCode self.now) codes.now }
        ensures { IfOk result
            (λ o. IfSome o (λ places. code_places self.now [] codes.now ≡ Some places.items)) }
    {
        if codes.len() > u32::MAX as usize {
            return Ok(None);
        }
        let mut places = Vec::new(alloc);
        if self.place(alloc, codes, &mut places)? {
            Ok(Some(places))
        } else {
            Ok(None)
        }
    }

    /// Returns the positions of the values of a row without symbol tests. `given` finds the
    /// position of a variable; it is empty before and after the call.
    pub(crate) fn value_places(
        &self,
        alloc: Global,
        codes: &[Code],
        given: &mut Places,
    ) -> Result<Vec<Place>, AllocError>
        requires there { All (IsCode self.now) codes.now }
        requires values { All (λ c. IsValue (part_at self.now c.part).meaning
            (length given.old.of.items)) codes.now }
        requires given { ArePlaces [] (length given.old.of.items) given.old }
        ensures places { IfOk result
            (λ places. code_places self.now [] codes.now ≡ Some places.items) }
        ensures given { IfOk result
            (λ places. ArePlaces [] (length given.old.of.items) given.new) }
    {
        let mut places = Vec::new(alloc);
        let mut variables = Vec::new(alloc);
        for code in codes {
            self.place_value(*code, given, &mut variables, &mut places)?;
        }
        given.clear(&variables);
        Ok(places)
    }

    /// Appends the position of one more value.
    fn place_value(
        &self,
        code: Code,
        given: &mut Places,
        variables: &mut Vec<u32>,
        places: &mut Vec<Place>,
    ) -> Result<(), AllocError>
        requires there { IsCode self.now code }
        requires value { IsValue (part_at self.now code.part).meaning (length given.old.of.items) }
        requires given { ArePlaces variables.old.items (length given.old.of.items) given.old }
        requires within { All (λ v. v < length given.old.of.items) variables.old.items }
        ensures place { IfOk result (λ u. PlacesValue self.now code variables.old.items
            places.old.items variables.new.items places.new.items) }
        ensures given { IfOk result
            (λ u. ArePlaces variables.new.items (length given.old.of.items) given.new) }
        ensures within { IfOk result
            (λ u. All (λ v. v < length given.old.of.items) variables.new.items) }
    {
        let Meaning::Variable(variable) = self.parts[code.part as usize].meaning else {
            return Ok(());
        };
        if let Some(value) = given.place(variable) {
            places.push(Place::Again {
                register: code.register,
                value,
            })?;
            return Ok(());
        }
        let Ok(place) = u32::try_from(variables.len()) else {
            return Err(AllocError);
        };
        given.give(variable, place);
        variables.push(variable)?;
        places.push(Place::First(code.register))?;
        Ok(())
    }
}
