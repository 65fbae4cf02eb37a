// What the printed page of a setting and the check of a capture against it share: the fields of a setting, the columns of a field,
// and what is wrong with a setting. Part of the programs appendix and on_page.
#![tactic(auto)]

mod field;
mod wrong;

pub use field::{Columns, HEADING};
use settings::{Setting, SettingError};
pub use wrong::tell;

// A setting, and all fields that a unit may send for it, in ascending order.
#[derive(Clone, Copy)]
pub struct Page<'a> {
    pub setting: Setting,
    pub fields: &'a [[u8; 3]],
}

impl<'a> Page<'a> {
    // The page of the setting that a text says; its fields are listed in room. An error where the lister refuses, too.
    pub fn of(text: &[u8], room: &'a mut [u8]) -> Result<Page<'a>, SettingError> {
        let setting = settings::read(text)?;
        let fields = list(setting, room)?;
        Ok(Page { setting, fields })
    }
}

// The fields of a setting.
fn list(setting: Setting, room: &mut [u8]) -> Result<&[[u8; 3]], SettingError> {
    let listed = match setting {
        Setting::Moving(speed, course) => fields::list_motion(speed, course, room),
        Setting::Lying(longitude, way) => {
            fields::list_longitude(longitude, way.hundred, way.west, room)
        }
    };
    if listed.refusal != 0 {
        return Err(SettingError::OutOfRange(setting));
    }
    let (found, _) = room.as_chunks();
    Ok(found.get(..listed.reported).unwrap_or(found))
}
