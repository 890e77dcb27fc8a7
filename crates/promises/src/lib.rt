// What is promised of the sender's calls, one after the other: specs/Promises.antt. There is no code here.
#![tactic(auto)]
