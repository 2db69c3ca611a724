// A sheet means one thing.
ghost use Rattle.sheet.specs.Meaning.{Meaning};

pub fn sheets_mean_one_thing()
    ensures { Meaning }
{}
