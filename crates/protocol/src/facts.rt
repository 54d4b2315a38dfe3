// What holds of all protocols and of all lawful base agreements. Each function carries a theorem; its proof is what the check asks for.
ghost use Rattle.protocol.specs.Existence.{BeginningsGoOn, PlaysExist};
ghost use Rattle.protocol.specs.Lawful.{AgreeingTakesARound, AgreeingTakesListening, AgreeingTakesMessages};

// Every beginning of a play goes on to its end.
pub fn beginnings_go_on<R>()
    ensures { BeginningsGoOn R }
{}

// There are plays of every protocol, for all inputs, whoever is taken over when.
pub fn plays_exist<R>()
    ensures { PlaysExist R }
{}

// Where several seats are to agree, it takes a round.
pub fn agreeing_takes_a_round<R>()
    ensures { AgreeingTakesARound R }
{}

// Where several seats are to agree, what they answer depends on what they hear.
pub fn agreeing_takes_listening<R>()
    ensures { AgreeingTakesListening R }
{}

// Where several seats are to agree, some message has a form.
pub fn agreeing_takes_messages<R>()
    ensures { AgreeingTakesMessages R }
{}
