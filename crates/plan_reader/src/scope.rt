ghost use Rattle.std.specs.Prelude.{length};
ghost use Rattle.plan_format.specs.Reading.{setting as setting_of};

use crate::items::Item;
use crate::reader::Reader;
use crate::short_list::ShortList;
use refusal::Refusal;

// A setting number of a scope, among settings of these value counts; it is above those before it.
#[derive(Clone, Copy)]
pub(crate) struct Setting<'a> {
    pub(crate) counts: &'a ShortList,
}

impl Item for Setting<'_> {
    ghost reading = { λ s b before. setting_of b (length s.counts.now) before };

    fn read(&self, reader: &mut Reader<'_>, before: &ShortList) -> Result<u8, Refusal> {
        let place = reader.place();
        let setting = reader.below(self.counts.len())?;
        if !before.rises_to(setting) {
            return Err(Refusal::NotAscending(place));
        }
        Ok(setting)
    }
}
