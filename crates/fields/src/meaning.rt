// What is written means one thing.
ghost use Rattle.fields.specs.Meaning.{OneMeaning};

pub fn fields_mean_one_thing()
    ensures { OneMeaning }
{}
